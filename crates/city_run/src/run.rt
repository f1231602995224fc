// The run of a city.
ghost use Rattle.std.specs.Prelude.{◌≡◌, ◌⊎◌, ◌++◌, ◌≤◌, All, IfOk, OnOk, OnErr, IsErrOf, length};
ghost use Rattle.move_model.specs.Check.{KeepsRules};
ghost use Rattle.move_files.specs.Outside.{Rose, SendsPrefix};
ghost use Rattle.city_maker.specs.Asked.{IsAsked};
ghost use Rattle.city_summary.specs.Summary.{AreTotals};
ghost use Rattle.city_summary.specs.Text as text_spec;
ghost use Rattle.city_run.specs.Sent.{IsSummed, SendsSummary, SendsPart, SearchesOver, OpensOver, SearchesForCity, OpensForCity};

use city_maker::{Generated, city};
use city_summary::{Totals, summary, summary_text};
use move_files::{Sink, WriteFail, write_whole};
use move_model::{Network, NoMemory, Queries};
use network_compile::compile;
use std::alloc::Global;
use std::sync::ledger::Ledger;
use steps::Steps;

/// Why the summary of a city was not sent whole.
#[derive(Clone, Copy, Debug, PartialEq, Eq)]
pub enum CityStop {
    /// A write failed.
    WriteFault,
    /// Memory was wanting.
    NoMemory,
}

// What the answers to queries over a network come to.
fn totals_of<L: Ledger, M: Ledger>(
    alloc: Global,
    network: Network,
    queries: &Queries,
    searches: &mut Steps<L>,
    opens: &mut Steps<M>,
) -> Result<Totals, NoMemory>
    requires rules { KeepsRules network }
    requires few { length queries.now ≤ 20 }
    requires asked { All (IsAsked network) queries.now }
    ensures totals { IfOk result (AreTotals network queries.now) }
    ensures searches { SearchesOver network queries.now searches.old searches.new }
    ensures opens { OpensOver network queries.now opens.old opens.new }
{
    let compiled = compile(alloc, network)?;
    summary(alloc, &compiled, queries, searches, opens)
}

// What the answers to the queries of a city come to.
fn totals_of_city<L: Ledger, M: Ledger>(
    alloc: Global,
    side: u32,
    lines: u32,
    number: u64,
    searches: &mut Steps<L>,
    opens: &mut Steps<M>,
) -> Result<Totals, NoMemory>
    requires least { 5 ≤ side }
    requires most { side ≤ 200 }
    requires few { lines ≤ 200 }
    ensures totals { IfOk result (IsSummed side lines number) }
    ensures searches { SearchesForCity side lines number searches.old searches.new }
    ensures opens { OpensForCity side lines number opens.old opens.new }
{
    let Generated { network, queries } = city(alloc, side, lines, number)?;
    totals_of(alloc, network, &queries, searches, opens)
}

// Sends a text.
fn send<O: Sink>(text: &[u8], out: &mut O) -> Result<(), CityStop>
    ensures ok { O.tells → OnOk result (O.sent out.new ≡ O.sent out.old ++ text.now) }
    ensures err { O.tells → OnErr result (SendsPrefix (O.sent out.old) text.now (O.sent out.new)) }
    ensures fault { IsErrOf result CityStop.WriteFault → Rose (O.faults out.old) (O.faults out.new) }
    ensures no_memory { IsErrOf result CityStop.NoMemory → Rose (O.wants out.old) (O.wants out.new) }
    ensures counts { (O.faults out.old ≤ O.faults out.new) × (O.wants out.old ≤ O.wants out.new) }
{
    match write_whole(out, text) {
        Ok(()) => Ok(()),
        Err(WriteFail::Failed) => Err(CityStop::WriteFault),
        Err(WriteFail::NoMemory) => Err(CityStop::NoMemory),
    }
}

// Sends the lines that tell the totals of a city.
fn send_totals<O: Sink>(alloc: Global, totals: &Totals, out: &mut O) -> Result<(), CityStop>
    ensures sent { O.tells → OnOk result (O.sent out.new ≡ O.sent out.old ++ text_spec.summary_text totals.now) }
    ensures part { O.tells → OnErr result (SendsPrefix (O.sent out.old) (text_spec.summary_text totals.now) (O.sent out.new)) }
    ensures fault { IsErrOf result CityStop.WriteFault → Rose (O.faults out.old) (O.faults out.new) }
    ensures no_memory { IsErrOf result CityStop.NoMemory → (out.new ≡ out.old) ⊎ Rose (O.wants out.old) (O.wants out.new) }
    ensures counts { (O.faults out.old ≤ O.faults out.new) × (O.wants out.old ≤ O.wants out.new) }
{
    let Ok(text) = summary_text(alloc, totals) else {
        return Err(CityStop::NoMemory);
    };
    send(text.as_slice(), out)
}

/// Makes the city of `side` rows and columns, of so many lines and of the draws that the number begins, and sends the lines
/// that tell its size and what the answers to its queries come to. `searches` counts searches in the streets that answer
/// queries, `opens` counts routes that rounds open.
pub fn run_city<O: Sink, L: Ledger, M: Ledger>(
    alloc: Global,
    side: u32,
    lines: u32,
    number: u64,
    out: &mut O,
    searches: &mut Steps<L>,
    opens: &mut Steps<M>,
) -> Result<(), CityStop>
    requires least { 5 ≤ side }
    requires most { side ≤ 200 }
    requires few { lines ≤ 200 }

    // On Ok the lines were sent, and nothing else. After a failed write a prefix of them was sent, and after want of memory
    // too, or nothing.
    ensures sent { O.tells → OnOk result (SendsSummary side lines number (O.sent out.old) (O.sent out.new)) }
    ensures part { O.tells → IsErrOf result CityStop.WriteFault → SendsPart side lines number (O.sent out.old) (O.sent out.new) }
    ensures part_or_none { O.tells → IsErrOf result CityStop.NoMemory → (out.new ≡ out.old) ⊎ SendsPart side lines number (O.sent out.old) (O.sent out.new) }

    // A write fault comes only where the faults of the sink rose. Want of memory comes before anything is sent, or where the
    // wants of the sink rose. No count of the sink falls.
    ensures fault { IsErrOf result CityStop.WriteFault → Rose (O.faults out.old) (O.faults out.new) }
    ensures no_memory { IsErrOf result CityStop.NoMemory → (out.new ≡ out.old) ⊎ Rose (O.wants out.old) (O.wants out.new) }
    ensures counts { (O.faults out.old ≤ O.faults out.new) × (O.wants out.old ≤ O.wants out.new) }

    // Each query that was begun makes three searches, and at most one for each walk of the journeys of its answer. Each round
    // opens each route at most once, for a range once for eight departures.
    ensures searches { SearchesForCity side lines number searches.old searches.new }
    ensures opens { OpensForCity side lines number opens.old opens.new }
{
    let Ok(totals) = totals_of_city(alloc, side, lines, number, searches, opens) else {
        return Err(CityStop::NoMemory);
    };
    send_totals(alloc, &totals, out)
}
