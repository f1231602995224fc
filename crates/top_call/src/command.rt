// The top call.
ghost use Rattle.std.specs.Prelude.{◌≡◌, ◌⊎◌, ◌++◌, ◌↔◌, ◌≢◌, ◌≤◌, ◌-◌, ◌<◌, ◌^◌, length, All, IsNone, IfSome};
ghost use Rattle.move_model.specs.Check.{KeepsRules};
ghost use Rattle.move_model.specs.declared.refusal.FileKind.{FileKind};
ghost use Rattle.network_file.specs.Compiled.{IsRight};
ghost use Rattle.query_table.specs.Queries.{IsQuery};
ghost use Rattle.move_files.specs.Outside.{Rose, SendsPrefix};
ghost use Rattle.feed_values.specs.Date.{IsDay};
ghost use Rattle.city_run.specs.Sent.{SearchesForCity, OpensForCity};
ghost use Rattle.top_call.specs.Words.{told, plan_of, city_in};
ghost use Rattle.top_call.specs.Reading.{OnlyReads, NeverFall};
ghost use Rattle.top_call.specs.Input.{held, IsInput, InputAccepted};
ghost use Rattle.top_call.specs.Rejected.{RejectsInput, ComesUnlessStopped, NoneRose, FitsInput};
ghost use Rattle.top_call.specs.Answered.{SearchesFor, OpensFor};
ghost use Rattle.top_call.specs.Status.{MissesFile, FailsFile, ComesUnsent, IsAnyInput, IsThisInput, Sends, SendsCity, line_of};
ghost use Rattle.top_call.specs.declared.status.Status.{Status as Ending};

use crate::line::Line;
use crate::network::read_inputs;
use crate::status::Status;
use crate::words::{PlanWords, city_words_in, plan_words};
use city_run::{CityStop, CityWords, run_city};
use move_files::{Files, Sink, write_whole};
use move_model::{Network, Queries};
use plan_core::{AnswerStop, Compiled, answer, compile};
use std::alloc::Global;
use std::sync::ledger::Ledger;
use steps::Steps;

// Sends the answers of a compiled network to the queries.
fn send_compiled<O: Sink, L: Ledger, M: Ledger>(
    alloc: Global,
    compiled: &Compiled,
    queries: &Queries,
    out: &mut O,
    searches: &mut Steps<L>,
    opens: &mut Steps<M>,
) -> Status
    requires right { IsRight compiled.now }
    requires few { length queries.now ≤ 100000 }
    requires queries { All (IsQuery compiled.now.network) queries.now }
    ensures ends { (result ≡ Status.Done) ⊎ (result ≡ Status.WriteFault) ⊎ (result ≡ Status.NoMemory) }
    ensures sent { O.tells → Sends (IsThisInput compiled.now.network queries.now) (O.sent out.old) (O.sent out.new) result }
    ensures write_fault { result ≡ Status.WriteFault → Rose (O.faults out.old) (O.faults out.new) }
    ensures counts { NeverFall O.Sink out.old out.new }
    ensures searches { SearchesFor (IsThisInput compiled.now.network queries.now) searches.old searches.new }
    ensures opens { OpensFor (IsThisInput compiled.now.network queries.now) opens.old opens.new }
{
    match answer(alloc, compiled, queries, out, searches, opens) {
        Ok(()) => Status::Done,
        Err(AnswerStop::WriteFault) => Status::WriteFault,
        Err(AnswerStop::NoMemory) => Status::NoMemory,
    }
}

// Sends the answers to the queries.
#[tactic(auto, unfolding(crate::specs::Status::Sends))]
fn send_answers<O: Sink, L: Ledger, M: Ledger>(
    alloc: Global,
    network: Network,
    queries: &Queries,
    out: &mut O,
    searches: &mut Steps<L>,
    opens: &mut Steps<M>,
) -> Status
    requires few { length queries.now ≤ 100000 }
    requires rules { KeepsRules network }
    requires queries { All (IsQuery network) queries.now }
    ensures ends { (result ≡ Status.Done) ⊎ (result ≡ Status.WriteFault) ⊎ (result ≡ Status.NoMemory) }
    ensures sent { O.tells → Sends (IsThisInput network queries.now) (O.sent out.old) (O.sent out.new) result }
    ensures write_fault { result ≡ Status.WriteFault → Rose (O.faults out.old) (O.faults out.new) }
    ensures counts { NeverFall O.Sink out.old out.new }
    ensures searches { SearchesFor (IsThisInput network queries.now) searches.old searches.new }
    ensures opens { OpensFor (IsThisInput network queries.now) opens.old opens.new }
{
    match compile(alloc, network) {
        Ok(compiled) => send_compiled(alloc, &compiled, queries, out, searches, opens),
        Err(_) => Status::NoMemory,
    }
}

// Runs `plan`.
#[tactic(auto, using(crate::proofs::RejectLemmas::fits_past))]
fn run_plan<F: Files, O: Sink, L: Ledger, M: Ledger>(
    alloc: Global,
    plan: &PlanWords,
    files: &mut F,
    out: &mut O,
    searches: &mut Steps<L>,
    opens: &mut Steps<M>,
) -> Status
    requires date { IsDay plan.now.date }
    requires scale { plan.now.scale ≤ 1000 }
    requires buffer { plan.now.buffer ≤ 3600 }
    ensures printed { F.tells → O.tells
        → Sends (IsInput (told plan.now) (held (told plan.now) (F.holds files.old))) (O.sent out.old) (O.sent out.new) result }
    ensures sent { O.tells → Sends IsAnyInput (O.sent out.old) (O.sent out.new) result }
    ensures unsent { ComesUnsent result → out.new ≡ out.old }
    ensures fits { F.tells → FitsInput (told plan.now) (held (told plan.now) (F.holds files.old)) result }
    ensures not_usage { result ≢ Status.Usage }
    ensures no_file { (kind : FileKind) → result ≡ Status.NoFile kind → MissesFile (told plan.now) F.Files kind files.old files.new }
    ensures read_fault { (kind : FileKind) → result ≡ Status.ReadFault kind → FailsFile (told plan.now) F.Files kind files.old files.new }
    ensures write_fault { result ≡ Status.WriteFault → Rose (O.faults out.old) (O.faults out.new) }
    ensures reads { OnlyReads F.Files files.old files.new }
    ensures counts { NeverFall O.Sink out.old out.new }
    ensures searches { F.tells → SearchesFor (IsInput (told plan.now) (held (told plan.now) (F.holds files.old))) searches.old searches.new }
    ensures opens { F.tells → OpensFor (IsInput (told plan.now) (held (told plan.now) (F.holds files.old))) opens.old opens.new }
    ensures unsearched { ComesUnsent result → (searches.new ≡ searches.old) × (opens.new ≡ opens.old) }
{
    match read_inputs(alloc, plan, files) {
        Ok((network, queries)) => send_answers(alloc, network, &queries, out, searches, opens),
        Err(status) => status,
    }
}

// Runs `plan`, where the words name one.
#[tactic(auto, unfolding(crate::specs::Status::Sends))]
fn run_plan_words<F: Files, O: Sink, L: Ledger, M: Ledger>(
    alloc: Global,
    words: &[String],
    files: &mut F,
    out: &mut O,
    searches: &mut Steps<L>,
    opens: &mut Steps<M>,
) -> Status
    ensures printed { F.tells → O.tells → IfSome (plan_of words.now) (λ plan.
        Sends (IsInput plan (held plan (F.holds files.old))) (O.sent out.old) (O.sent out.new) result) }
    ensures sent { O.tells → Sends IsAnyInput (O.sent out.old) (O.sent out.new) result }
    ensures unsent { ComesUnsent result → out.new ≡ out.old }
    ensures fits { F.tells → IfSome (plan_of words.now) (λ plan. FitsInput plan (held plan (F.holds files.old)) result) }
    ensures usage { (result ≡ Status.Usage) ↔ IsNone (plan_of words.now) }
    ensures unread { result ≡ Status.Usage → files.new ≡ files.old }
    ensures no_file { (kind : FileKind) → result ≡ Status.NoFile kind
        → IfSome (plan_of words.now) (λ plan. MissesFile plan F.Files kind files.old files.new) }
    ensures read_fault { (kind : FileKind) → result ≡ Status.ReadFault kind
        → IfSome (plan_of words.now) (λ plan. FailsFile plan F.Files kind files.old files.new) }
    ensures write_fault { result ≡ Status.WriteFault → Rose (O.faults out.old) (O.faults out.new) }
    ensures reads { OnlyReads F.Files files.old files.new }
    ensures counts { NeverFall O.Sink out.old out.new }
    ensures searches { F.tells → IfSome (plan_of words.now) (λ plan.
        SearchesFor (IsInput plan (held plan (F.holds files.old))) searches.old searches.new) }
    ensures opens { F.tells → IfSome (plan_of words.now) (λ plan.
        OpensFor (IsInput plan (held plan (F.holds files.old))) opens.old opens.new) }
    ensures unsearched { ComesUnsent result → (searches.new ≡ searches.old) × (opens.new ≡ opens.old) }
{
    match plan_words(words) {
        None => Status::Usage,
        Some(plan) => run_plan(alloc, &plan, files, out, searches, opens),
    }
}

// Runs `city`.
#[tactic(auto, unfolding(crate::specs::Status::SendsCity, crate::specs::Status::ComesUnsent))]
fn run_city_words<O: Sink, L: Ledger, M: Ledger>(
    alloc: Global,
    city: CityWords,
    out: &mut O,
    searches: &mut Steps<L>,
    opens: &mut Steps<M>,
) -> Status
    requires least { 5 ≤ city.side }
    requires most { city.side ≤ 200 }
    requires few { city.lines ≤ 200 }
    ensures ends { (result ≡ Status.Done) ⊎ (result ≡ Status.WriteFault) ⊎ (result ≡ Status.NoMemory) }
    ensures summed { O.tells → SendsCity city (O.sent out.old) (O.sent out.new) result }
    ensures write_fault { result ≡ Status.WriteFault → Rose (O.faults out.old) (O.faults out.new) }
    ensures counts { NeverFall O.Sink out.old out.new }
    ensures searches { SearchesForCity city.side city.lines city.number searches.old searches.new }
    ensures opens { OpensForCity city.side city.lines city.number opens.old opens.new }
{
    match run_city(
        alloc,
        city.side,
        city.lines,
        city.number,
        out,
        searches,
        opens,
    ) {
        Ok(()) => Status::Done,
        Err(CityStop::WriteFault) => Status::WriteFault,
        Err(CityStop::NoMemory) => Status::NoMemory,
    }
}

// The command that the words name, without the line of its status.
fn run_command<F: Files, O: Sink, L: Ledger, M: Ledger>(
    alloc: Global,
    words: &[String],
    files: &mut F,
    out: &mut O,
    searches: &mut Steps<L>,
    opens: &mut Steps<M>,
) -> Status
    ensures printed { F.tells → O.tells → IfSome (plan_of words.now) (λ plan.
        Sends (IsInput plan (held plan (F.holds files.old))) (O.sent out.old) (O.sent out.new) result) }
    ensures summed { O.tells → IfSome (city_in words.now) (λ city. SendsCity city (O.sent out.old) (O.sent out.new) result) }
    ensures sent { O.tells → IsNone (city_in words.now) → Sends IsAnyInput (O.sent out.old) (O.sent out.new) result }
    ensures unsent { ComesUnsent result → out.new ≡ out.old }
    ensures fits { F.tells → IfSome (plan_of words.now) (λ plan. FitsInput plan (held plan (F.holds files.old)) result) }
    ensures usage { (result ≡ Status.Usage) ↔ (IsNone (plan_of words.now) × IsNone (city_in words.now)) }
    ensures unread { IsNone (plan_of words.now) → files.new ≡ files.old }
    ensures city_ends { IfSome (city_in words.now) (λ city. (result ≡ Status.Done) ⊎ (result ≡ Status.WriteFault) ⊎ (result ≡ Status.NoMemory)) }
    ensures no_file { (kind : FileKind) → result ≡ Status.NoFile kind
        → IfSome (plan_of words.now) (λ plan. MissesFile plan F.Files kind files.old files.new) }
    ensures read_fault { (kind : FileKind) → result ≡ Status.ReadFault kind
        → IfSome (plan_of words.now) (λ plan. FailsFile plan F.Files kind files.old files.new) }
    ensures write_fault { result ≡ Status.WriteFault → Rose (O.faults out.old) (O.faults out.new) }
    ensures reads { OnlyReads F.Files files.old files.new }
    ensures counts { NeverFall O.Sink out.old out.new }
    ensures searches { F.tells → IfSome (plan_of words.now) (λ plan.
        SearchesFor (IsInput plan (held plan (F.holds files.old))) searches.old searches.new) }
    ensures opens { F.tells → IfSome (plan_of words.now) (λ plan.
        OpensFor (IsInput plan (held plan (F.holds files.old))) opens.old opens.new) }
    ensures city_searches { IfSome (city_in words.now) (λ city. SearchesForCity city.side city.lines city.number searches.old searches.new) }
    ensures city_opens { IfSome (city_in words.now) (λ city. OpensForCity city.side city.lines city.number opens.old opens.new) }
    ensures unsearched { ComesUnsent result → (searches.new ≡ searches.old) × (opens.new ≡ opens.old) }
{
    match city_words_in(words) {
        Some(city) => run_city_words(alloc, city, out, searches, opens),
        None => run_plan_words(alloc, words, files, out, searches, opens),
    }
}

/// Sends the line of a status.
pub fn tell<E: Sink>(status: Status, err: &mut E)
    ensures line { E.tells → SendsPrefix (E.sent err.old) (line_of status) (E.sent err.new) }
    ensures whole_line { E.tells → (E.sent err.new ≡ E.sent err.old ++ line_of status) ⊎ Rose (E.faults err.old) (E.faults err.new) ⊎ Rose (E.wants err.old) (E.wants err.new) }
    ensures counts { NeverFall E.Sink err.old err.new }
{
    let mut line = Line::new();
    line.tell(status);
    let _ = write_whole(err, line.bytes());
}

/// Runs the command that the words name, over files and sinks that are handed in. `searches` counts searches in the streets
/// that answer queries, `opens` counts routes that rounds open.
pub fn run<F: Files, O: Sink, E: Sink, L: Ledger, M: Ledger>(
    alloc: Global,
    words: &[String],
    files: &mut F,
    out: &mut O,
    err: &mut E,
    searches: &mut Steps<L>,
    opens: &mut Steps<M>,
) -> Status
    // On Done the rows of the answers to the queries of QUERIES over the network of the files were sent: for a point query
    // exactly its Pareto set over all journeys of the network, and for a range exactly the Pareto set at every second of its
    // window, as the walk on foot and spans. Each pair and span has the legs of a journey that attains it, and whose transfers
    // from one stop to another are shortcuts of the network. After a failed write, or want of memory, a part of such a text was
    // sent; every other status comes before anything is sent.
    ensures printed { F.tells → O.tells → IfSome (plan_of words.now) (λ plan.
        Sends (IsInput plan (held plan (F.holds files.old))) (O.sent out.old) (O.sent out.new) result) }

    // For a city, on Done the lines of its summary were sent: its size, the number of its shortcuts, and what the exact answers
    // to its queries come to. A failed write, or want of memory, ends it as it ends a plan, and no other status comes.
    ensures summed { O.tells → IfSome (city_in words.now) (λ city. SendsCity city (O.sent out.old) (O.sent out.new) result) }
    ensures city_ends { IfSome (city_in words.now) (λ city. (result ≡ Status.Done) ⊎ (result ≡ Status.WriteFault) ⊎ (result ≡ Status.NoMemory)) }

    // Over files that tell no contents, the rows are those of some queries over some network.
    ensures sent { O.tells → IsNone (city_in words.now) → Sends IsAnyInput (O.sent out.old) (O.sent out.new) result }
    ensures unsent { ComesUnsent result → out.new ≡ out.old }

    // Refused and NoFile tell the first thing that is wrong with the files, in the order in which they are read; ReadFault
    // is of a file that is read where nothing before it is wrong; Done and WriteFault come where nothing is wrong.
    ensures fits { F.tells → IfSome (plan_of words.now) (λ plan. FitsInput plan (held plan (F.holds files.old)) result) }

    // Where something is wrong with the files, its status comes, unless memory was wanting or a read failed.
    ensures rejected { F.tells → (status : Ending) → IfSome (plan_of words.now) (λ plan. RejectsInput plan (held plan (F.holds files.old)) status
        → ComesUnlessStopped status result) }

    // Where nothing is wrong with them and no count of faults rose, all was done, or memory was wanting.
    ensures complete { F.tells → IfSome (plan_of words.now) (λ plan. InputAccepted plan (held plan (F.holds files.old))
        → NoneRose (F.read_faults files.old) (F.read_faults files.new) → (Rose (O.faults out.old) (O.faults out.new) → ⊥)
        → (result ≡ Status.Done) ⊎ (result ≡ Status.NoMemory)) }

    // Usage comes exactly where the words are no command. No file is read where they are no plan. A missing file and a failed read are of
    // a file that the words name, and only where the count of that name rose; a failed write only where that of out rose.
    ensures usage { (result ≡ Status.Usage) ↔ (IsNone (plan_of words.now) × IsNone (city_in words.now)) }
    ensures unread { IsNone (plan_of words.now) → files.new ≡ files.old }
    ensures no_file { (kind : FileKind) → result ≡ Status.NoFile kind
        → IfSome (plan_of words.now) (λ plan. MissesFile plan F.Files kind files.old files.new) }
    ensures read_fault { (kind : FileKind) → result ≡ Status.ReadFault kind
        → IfSome (plan_of words.now) (λ plan. FailsFile plan F.Files kind files.old files.new) }
    ensures write_fault { result ≡ Status.WriteFault → Rose (O.faults out.old) (O.faults out.new) }

    // The line of the status is sent to err, or a part of it where a count of err rose.
    ensures line { E.tells → SendsPrefix (E.sent err.old) (line_of result) (E.sent err.new) }
    ensures whole_line { E.tells → (E.sent err.new ≡ E.sent err.old ++ line_of result) ⊎ Rose (E.faults err.old) (E.faults err.new) ⊎ Rose (E.wants err.old) (E.wants err.new) }

    // No file changes, no write to a file fails, and no count of the outside falls.
    ensures reads { OnlyReads F.Files files.old files.new }
    ensures counts { NeverFall O.Sink out.old out.new × NeverFall E.Sink err.old err.new }

    // Streets are searched three times for each query that was begun, and at most once for each walk of the journeys of its
    // answer. Each route of the trips is opened at most once for each round of a point query, and at most once for each round
    // and eight departures of a range; a query has as many rounds as its limit. Where nothing is sent because of the words or
    // the files, nothing is searched and no route is opened.
    ensures searches { F.tells → IfSome (plan_of words.now) (λ plan.
        SearchesFor (IsInput plan (held plan (F.holds files.old))) searches.old searches.new) }
    ensures opens { F.tells → IfSome (plan_of words.now) (λ plan.
        OpensFor (IsInput plan (held plan (F.holds files.old))) opens.old opens.new) }
    ensures city_searches { IfSome (city_in words.now) (λ city. SearchesForCity city.side city.lines city.number searches.old searches.new) }
    ensures city_opens { IfSome (city_in words.now) (λ city. OpensForCity city.side city.lines city.number opens.old opens.new) }
    ensures unsearched { ComesUnsent result → (searches.new ≡ searches.old) × (opens.new ≡ opens.old) }
{
    let status = run_command(alloc, words, files, out, searches, opens);
    tell(status, err);
    status
}
