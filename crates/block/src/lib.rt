// The report over a block (02, wish 2): one walk over the fields says whether the bytes are a block, before any net is planned; a second plans the nets and
// adds up what planning answers.

#![tactic(auto)]

ghost use Rattle.std.specs.Prelude.{◌≡◌, true, ℕ, ◌<◌, length};
ghost use Rattle.rules.specs.Timing as timing;
ghost use Rattle.rules.specs.Reading.{accept, refuse};
ghost use Rattle.rules.specs.Program.{program_table, program_room, program_planned};
ghost use Rattle.rules.specs.Block.{net_numbers, no_totals, report};
ghost use Rattle.facts.specs.Block.{max_nets};
ghost use Rattle.demands.specs.Totals.{plus, Small};
ghost use Rattle.words.specs.Words.{word_count};
ghost use Rattle.words.specs.Net.{net_of};
ghost use Rattle.tree.specs.Plans.{Fitting};
ghost use Rattle.block.specs.Walks.{is_run, is_block};

use fields::{Due, field_at, number};
use lengths::add_lengths;
use planning::plan_net;
use reader::read;
use rules::{Refusal, Report};
use words::{Net, WORDS};

// Whether the bytes are fields of tag 6 from the front to the end. No net is planned.
fn is_run(block: &[u8]) -> bool
    ensures { result ≡ is_run block.now }
{
    let mut at: usize = 0;
    // Kept: no index is counted: each turn goes on by the length of the field that it read.
    while at < block.len() {
        let Ok(field) = field_at(block, at, Due::Net, 0) else {
            return false;
        };
        at = field.start + field.size;
    }
    true
}

// Whether the bytes are a block: such fields, and not too long.
#[tactic(auto, unfolding(crate::specs::Walks::is_block, crate::specs::Walks::is_run, rules::specs::Block::block))]
fn is_block(block: &[u8]) -> bool
    ensures { result ≡ is_block block.now }
{
    block.len() <= rules::MAX_BLOCK && is_run(block)
}

// No totals: a refusal number, 0 before the first net, and zeros.
// Kept: the report is flat, with a refusal number: the C interface and `report` (rules/specs/Block.antt) have it so.
#[tactic(auto, unfolding(rules::specs::Block::no_totals))]
fn no_totals(refusal: u8) -> Report
    ensures { result ≡ no_totals refusal }
{
    Report {
        refusal,
        nets: 0,
        planned: 0,
        refused: [0; rules::NET_NUMBERS],
        cost: 0,
        lengths: [0; rules::MAX_LAYERS],
    }
}

// One net more, refused with this number: it is counted, and adds nothing else.
// Kept: refusals are counted by number (`refused`, an array by number: the C interface).
fn add_refused(sums: Report, r: u8) -> Report
    requires { Small max_nets sums × (r < net_numbers) }
    ensures { result ≡ plus sums (refuse r) }
{
    let mut refused = sums.refused;
    refused[usize::from(r)] += 1;
    Report {
        refusal: 0,
        nets: sums.nets + 1,
        refused,
        ..sums
    }
}

// One net more, with the plan that was found: its cost and its wire on each layer are added.
fn add_planned(sums: Report, net: &Net<'_>, plan: &[u8], cost: u64) -> Report
    requires { Small max_nets sums × Fitting (net_of net.now) plan.now × (cost ≡ timing.cost (net_of net.now) plan.now) }
    ensures { (k : ℕ) → result ≡ plus sums (accept (record { net = net_of net.now; k = k; plan = plan.now })) }
{
    let mut lengths = sums.lengths;
    add_lengths(net, plan, &mut lengths);
    Report {
        refusal: 0,
        nets: sums.nets + 1,
        planned: sums.planned + 1,
        cost: sums.cost + cost,
        lengths,
        ..sums
    }
}

// One net more: what planning answers for it, added to the sums.
fn add_net(
    sums: Report,
    net: &[u8],
    words: &mut [u32],
    table: &mut [i64],
    plan: &mut [u8],
) -> Report
    requires { Small max_nets sums × (length words.old ≡ word_count) × (length table.old ≡ program_table) × (length plan.old ≡ program_room) }
    ensures { result ≡ plus sums (program_planned net.now) }
{
    let counts = match read(net, true, words) {
        Ok(counts) => counts,
        Err(why) => return add_refused(sums, u8::from(why)),
    };
    let net = Net::of(words);
    let answer = plan_net(
        &net,
        counts.stages,
        rules::PROGRAM_P,
        rules::PROGRAM_Q,
        table,
        plan,
    );
    if answer.refusal != 0 {
        return add_refused(sums, answer.refusal);
    }
    add_planned(sums, &net, &plan[..counts.stages], answer.cost)
}

// The totals over the nets of a block. The fields are known to be there, so only their lengths are read.
fn totals(block: &[u8]) -> Report
    requires { is_block block.now ≡ true }
    ensures { result ≡ report block.now }
{
    let mut words = [0u32; WORDS];
    let mut table = [0i64; rules::PROGRAM_TABLE];
    let mut plan = [0u8; rules::PROGRAM_ROOM];
    let mut sums = no_totals(0);
    let mut at: usize = 0;
    // Kept: no index is counted: each turn goes on by the length of the field that it read.
    while at < block.len() {
        let start = at + 3;
        let next = start + number(block, at + 1, 2) as usize;
        sums = add_net(sums, &block[start..next], &mut words, &mut table, &mut plan);
        at = next;
    }
    sums
}

// What the report tells of a block: the totals over its nets, or 13 and zeros.
pub fn report(block: &[u8]) -> Report
    ensures { result ≡ report block.now }
{
    if !is_block(block) {
        return no_totals(u8::from(Refusal::NoBlock));
    }
    totals(block)
}
