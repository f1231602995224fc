// Which numbers of rides gain.
ghost use Rattle.std.specs.Prelude.{◌≡◌, ◌+◌, ◌<◌};
ghost use Rattle.std.specs.Option.{option_map};
ghost use Rattle.raptor_rounds.specs.Answers.{HasSeconds};
ghost use Rattle.network_answers.specs.Gains as spec;

// The arrival on foot.
pub(crate) fn on_foot(depart: u32, foot: Option<u64>) -> Option<u64>
    requires { HasSeconds foot }
    ensures { result ≡ spec.on_foot depart foot }
{
    match foot {
        Some(seconds) => Some(u64::from(depart) + seconds),
        None => None,
    }
}

// The lesser of two optional seconds.
pub(crate) fn lesser(left: Option<u64>, right: Option<u64>) -> Option<u64>
    ensures { result ≡ spec.lesser left right }
{
    match left {
        None => right,
        Some(seconds) => match right {
            None => Some(seconds),
            Some(others) => Some(seconds.min(others)),
        },
    }
}

// A second where it is less than another, or where there is no other.
pub(crate) fn beats(second: Option<u64>, other: Option<u64>) -> Option<u64>
    ensures { result ≡ spec.beats second other }
{
    match second {
        None => None,
        Some(seconds) => match other {
            None => Some(seconds),
            Some(others) => {
                if seconds < others {
                    Some(seconds)
                } else {
                    None
                }
            }
        },
    }
}
