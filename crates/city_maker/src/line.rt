// Lines.
ghost use Rattle.std.specs.Prelude.{◌≡◌, ◌+◌, ◌*◌, ◌<◌, ◌≤◌, All, IfOk, OnOk};

use crate::draws::Draws;
use move_model::NoMemory;
use std::alloc::Global;

/// A line along a row or a column of the city.
#[derive(Clone, Copy)]
pub(crate) struct Line {
    /// Its number, from 0. An even line runs along a row, an odd line along a column.
    pub(crate) number: u32,
    /// The row or the column.
    pub(crate) place: u32,
    /// The seconds from one start to the next.
    pub(crate) headway: u32,
    /// The seconds from 06:00:00 to the first start.
    pub(crate) offset: u32,
}

impl Line {
    ghost use Rattle.city_maker.specs.Lines.{line_at, city_lines, Fits};

    // The next three draws as a line.
    fn draw(draws: &mut Draws, side: u32, number: u32) -> Line
        requires side { 0 < side }
        requires few { number < 200 }
        requires made { draws.old.made ≡ 3 * number }
        ensures line { result ≡ line_at side draws.old.number number }
        ensures fits { Fits side result }
        ensures number { draws.new.number ≡ draws.old.number }
        ensures made { draws.new.made ≡ 3 * (number + 1) }
    {
        let place = draws.below(side);
        let headway = 300 + 60 * draws.below(11);
        let offset = draws.below(headway);
        Line {
            number,
            place,
            headway,
            offset,
        }
    }

    /// Draws the lines of a city.
    #[tactic(auto, using(crate::proofs::Ranges::map_range_more))]
    pub(crate) fn draw_all(
        alloc: Global,
        draws: &mut Draws,
        side: u32,
        many: u32,
    ) -> Result<Vec<Line>, NoMemory>
        requires side { 0 < side }
        requires few { many ≤ 200 }
        requires none { draws.old.made ≡ 0 }
        ensures lines { IfOk result (λ lines. lines.items ≡ city_lines side draws.old.number many) }
        ensures fit { IfOk result (λ lines. All (Fits side) lines.items) }
        ensures number { OnOk result (draws.new.number ≡ draws.old.number) }
        ensures made { OnOk result (draws.new.made ≡ 3 * many) }
    {
        let mut lines = Vec::with_capacity(alloc, many as usize)?;
        for number in 0..many {
            lines.push_reserved(Line::draw(draws, side, number));
        }
        Ok(lines)
    }
}
