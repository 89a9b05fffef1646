// The open calls of the layer planner for hosts in other languages (include/vorphiel.h), of which libvorphiel.a is built. Each contract is that of the call of
// crates/vorphiel of the same name; the desk is here alone.
// Kept: the C interface needs it: refusals are numbers here, and what else is answered is left where the host says, number by number.
#![tactic(auto)]

ghost use Rattle.std.specs.Prelude.{◌≡◌};
ghost use Rattle.rules.specs.Reading.{check};
ghost use Rattle.rules.specs.Judging.{judge};
ghost use Rattle.rules.specs.Planning.{plan_answer, plan, Demand2, Demand3};
ghost use Rattle.rules.specs.Rounds.{rounds_answer, plan_rounds, RoundsPromise};
ghost use Rattle.rules.specs.Chart.{table_entries};
ghost use Rattle.rules.specs.Block.{report, BlockPromise};
ghost use Rattle.rules.specs.Desk.{to_open, to_set, to_lock, to_unlock, to_read, counts_reply, number_reply, figures_reply};
ghost use Rattle.desk_record.specs.OnRecord.{desk_size, set_on, lock_on, unlock_on};
ghost use Rattle.desk.specs.OnDesk.{open_on, read_on};
ghost use Rattle.desk.specs.Stands.{Follows};
ghost use Rattle.vorphiel.specs.Version.{version};

use desk::{open_value, read_value};
use desk_record::{Desk, lock_value, set_value, unlock_value};
use rules::{Checked, Judged, Report};

// Checking for hosts in other languages: the result is the refusal number, the three counts are left where the host says.
#[unsafe(no_mangle)]
pub extern "C" fn vorphiel_check(
    net: &[u8],
    nodes: &mut u64,
    stages: &mut u64,
    layers: &mut u64,
) -> u8
    ensures { record { refusal = result; nodes = nodes.new; stages = stages.new; layers = layers.new } ≡ check net.now }
{
    let checked = vorphiel::check(net);
    *nodes = checked.nodes;
    *stages = checked.stages;
    *layers = checked.layers;
    checked.refusal
}

// Judging for hosts in other languages: the result is the refusal number, cost and slack are left where the host says.
#[unsafe(no_mangle)]
pub extern "C" fn vorphiel_judge(net: &[u8], plan: &[u8], cost: &mut u64, slack: &mut i64) -> u8
    ensures { record { refusal = result; cost = cost.new; slack = slack.new } ≡ judge net.now plan.now }
{
    let judged = vorphiel::judge(net, plan);
    *cost = judged.cost;
    *slack = judged.slack;
    judged.refusal
}

// Planning for hosts in other languages: the result is the refusal number, the four numbers are left where the host says.
#[unsafe(no_mangle)]
pub extern "C" fn vorphiel_plan(
    net: &[u8],
    p: u64,
    q: u64,
    table: &mut [i64],
    buffer: &mut [u8],
    cost: &mut u64,
    slack: &mut i64,
    k: &mut u64,
    floor: &mut u64,
) -> u8
    ensures equation { plan_answer (record { refusal = result; cost = cost.new; slack = slack.new; k = k.new; floor = floor.new })
        buffer.new table.new ≡ plan net.now p q table.old buffer.old }
    ensures demand2 { Demand2 net.now p q table.old buffer.old buffer.new
        (record { refusal = result; cost = cost.new; slack = slack.new; k = k.new; floor = floor.new }) }
    ensures demand3 { Demand3 net.now p q table.old buffer.old buffer.new
        (record { refusal = result; cost = cost.new; slack = slack.new; k = k.new; floor = floor.new }) }
{
    let planned = vorphiel::plan(net, p, q, table, buffer);
    *cost = planned.cost;
    *slack = planned.slack;
    *k = planned.k;
    *floor = planned.floor;
    planned.refusal
}

// The same for hosts in other languages: the result is the refusal number, the four numbers are left where the host says.
#[unsafe(no_mangle)]
pub extern "C" fn vorphiel_plan_rounds(
    net: &[u8],
    r: u64,
    table: &mut [i64],
    buffer: &mut [u8],
    cost: &mut u64,
    slack: &mut i64,
    floor: &mut u64,
    rounds: &mut u64,
) -> u8
    ensures equation { rounds_answer (record { refusal = result; cost = cost.new; slack = slack.new; floor = floor.new; rounds = rounds.new })
        buffer.new table.new ≡ plan_rounds net.now r table.old buffer.old }
    ensures rounds_promise { RoundsPromise net.now r table.old buffer.old
        (rounds_answer (record { refusal = result; cost = cost.new; slack = slack.new; floor = floor.new; rounds = rounds.new })
        buffer.new table.new) }
{
    let best = vorphiel::plan_rounds(net, r, table, buffer);
    *cost = best.cost;
    *slack = best.slack;
    *floor = best.floor;
    *rounds = best.rounds;
    best.refusal
}

// The chart's number for hosts in other languages.
#[unsafe(no_mangle)]
pub extern "C" fn vorphiel_table_entries(s: u64, q: u64) -> u64
    ensures { result ≡ table_entries s q }
{
    vorphiel::table_entries(s, q)
}

// The report for hosts in other languages: a struct by value.
#[unsafe(no_mangle)]
pub extern "C" fn vorphiel_report(block: &[u8]) -> Report
    ensures value { result ≡ report block.now }
    ensures block_promise { BlockPromise block.now result }
{
    vorphiel::report(block)
}

// The desk (02, wish 8): a record that the host lends and each call alters there. Each contract has two clauses. The first is an equation for every content
// that the record can have: no call leads beyond it, whatever a host wrote there. The second says it in the words of the rules: whatever desk in mind the
// record stands for, it then stands for the one that the rules say, and the answer is theirs. That the desk came from these calls enters there and nowhere
// else. For every run of calls on a record that was cleared: `fresh-runs` (crates/desk/specs/Runs.antt).
// Kept: each call that takes the lent record copies it into `v` first: the laws over the machine's code (crates/lent_desk/proofs: `ThinTwo`, `ThinOne`, `Seen`)
// speak of bodies of this shape, of all but that of opening.

// The size of the record, for hosts that cannot ask their compiler.
#[unsafe(no_mangle)]
pub extern "C" fn vorphiel_desk_size() -> u64
    ensures { result ≡ desk_size }
{
    desk_record::desk_size()
}

// Opening: the net's bytes are copied, every stage is on layer 0, unlocked; the reader's counts; or 15, or 1 to 6, and zeros.
#[unsafe(no_mangle)]
pub extern "C" fn vorphiel_desk_open(desk: &mut Desk, net: &[u8]) -> Checked
    ensures equation { record { desk = desk.new; answer = result } ≡ open_on desk.old net.now }
    ensures follows { Follows (to_open net.now) desk.old desk.new (counts_reply result) }
{
    let v = *desk;
    let o = open_value(v, net);
    *desk = o.desk;
    o.answer
}

// Setting: a stage is moved to a layer; or 16, then 7, then 8, then 17.
#[unsafe(no_mangle)]
pub extern "C" fn vorphiel_desk_set(desk: &mut Desk, stage: u64, layer: u64) -> u8
    ensures equation { record { desk = desk.new; answer = result } ≡ set_on desk.old stage layer }
    ensures follows { Follows (to_set stage layer) desk.old desk.new (number_reply result) }
{
    let v = *desk;
    let o = set_value(v, stage, layer);
    *desk = o.desk;
    o.answer
}

// Locking: a stage is marked as locked; or 16, then 7.
#[unsafe(no_mangle)]
pub extern "C" fn vorphiel_desk_lock(desk: &mut Desk, stage: u64) -> u8
    ensures equation { record { desk = desk.new; answer = result } ≡ lock_on desk.old stage }
    ensures follows { Follows (to_lock stage) desk.old desk.new (number_reply result) }
{
    let v = *desk;
    let o = lock_value(v, stage);
    *desk = o.desk;
    o.answer
}

// Unlocking: a stage is marked as not locked; or 16, then 7.
#[unsafe(no_mangle)]
pub extern "C" fn vorphiel_desk_unlock(desk: &mut Desk, stage: u64) -> u8
    ensures equation { record { desk = desk.new; answer = result } ≡ unlock_on desk.old stage }
    ensures follows { Follows (to_unlock stage) desk.old desk.new (number_reply result) }
{
    let v = *desk;
    let o = unlock_value(v, stage);
    *desk = o.desk;
    o.answer
}

// Reading: the cost and slack that judging gives for the net and the plan on the desk; or 16 and zeros.
#[unsafe(no_mangle)]
pub extern "C" fn vorphiel_desk_read(desk: &Desk) -> Judged
    ensures value { result ≡ read_on desk.now }
    ensures follows { Follows to_read desk.now desk.now (figures_reply result) }
{
    let v = *desk;
    read_value(v)
}

// The version for hosts in other languages.
#[unsafe(no_mangle)]
pub extern "C" fn vorphiel_version() -> u64
    ensures { result ≡ version }
{
    vorphiel::version()
}
