// Planning from the bytes of a net: the refusals in their order, and what planning the net that was read gives. The open calls of `vorphiel` hand these on.

#![tactic(auto)]

ghost use Rattle.std.specs.Prelude.{◌≡◌, ◌<◌, ◌≤◌, length, MatchResult};
ghost use Rattle.laws.specs.Basic.{within};
ghost use Rattle.rules.specs.Rounds.{max_rounds};
ghost use Rattle.words.specs.Words.{word_count};
ghost use Rattle.planning.specs.Calls.{PlansNet};
ghost use Rattle.rounds_planning.specs.Calls.{PlansRounds};
ghost use Rattle.calls.specs.Admissions.{MayPlan, MayRun};

use fields::share_in_range;
use planning::{plan_net, refused};
use reader::{NetCounts, read};
use rounds_planning::{rounds_net, rounds_refused};
use rules::{MAX_ROUNDS, Planned, Refusal, RoundsPlanned};
use words::{Net, WORDS};

// These counts, where a plan buffer of this length has room for the plan (10).
fn with_room(counts: NetCounts, room: usize) -> Result<NetCounts, Refusal>
    ensures { MatchResult result (λ n. (n ≡ counts) × (counts.stages ≤ room)) (λ why. (why ≡ Refusal.NoRoom) × (room < counts.stages)) }
{
    if counts.stages <= room {
        Ok(counts)
    } else {
        Err(Refusal::NoRoom)
    }
}

// The net that may be planned, by the refusals in their order: 1 to 6 of the net, 9, 10.
fn admitted(
    net: &[u8],
    p: u64,
    q: u64,
    room: usize,
    words: &mut [u32],
) -> Result<NetCounts, Refusal>
    requires { length words.old ≡ word_count }
    ensures { MayPlan net.now p q room result words.new }
{
    let counts = read(net, true, words)?;
    if !share_in_range(p, q) {
        return Err(Refusal::WrongShare);
    }
    with_room(counts, room)
}

// Planning, by the refusals in their order, and what the search gives.
// Kept: beside `planned_rounds`: other refusals, another search and another answer; what both share is `with_room` and `read`.
pub fn planned(net: &[u8], p: u64, q: u64, table: &mut [i64], buffer: &mut [u8]) -> Planned
    ensures { PlansNet net.now p q table.old table.new buffer.old buffer.new result }
{
    let mut words = [0u32; WORDS];
    match admitted(net, p, q, buffer.len(), &mut words) {
        Ok(n) => {
            let net = Net::of(&words);
            plan_net(&net, n.stages, p, q, table, buffer)
        }
        Err(why) => refused(u8::from(why)),
    }
}

// Whether the number of rounds is in its range (refusal 14).
fn rounds_in_range(r: u64) -> bool
    ensures { result ≡ within 1 max_rounds r }
{
    (1..=MAX_ROUNDS).contains(&r)
}

// The net that may be planned by r rounds, by the refusals in their order: 1 to 6 of the net, 14, 10.
fn admitted_by_rounds(
    net: &[u8],
    r: u64,
    room: usize,
    words: &mut [u32],
) -> Result<NetCounts, Refusal>
    requires { length words.old ≡ word_count }
    ensures { MayRun net.now r room result words.new }
{
    let counts = read(net, true, words)?;
    if !rounds_in_range(r) {
        return Err(Refusal::WrongRounds);
    }
    with_room(counts, room)
}

// Planning by rounds, by the refusals in their order, and what the rounds give.
// Kept: beside `planned`: other refusals, another search and another answer.
pub fn planned_rounds(net: &[u8], r: u64, table: &mut [i64], buffer: &mut [u8]) -> RoundsPlanned
    ensures { PlansRounds net.now r table.old table.new buffer.old buffer.new result }
{
    let mut words = [0u32; WORDS];
    match admitted_by_rounds(net, r, buffer.len(), &mut words) {
        Ok(n) => {
            let net = Net::of(&words);
            rounds_net(&net, n.stages, r, table, buffer)
        }
        Err(why) => rounds_refused(u8::from(why)),
    }
}
