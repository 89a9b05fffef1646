// The desk's record (02, wish 8), and what a change or an opening makes of it: each function takes the record by value and hands back what it becomes, with
// the answer. It answers for every content of the record; which refusal comes first is settled in one place, `change_refusal`.
#![tactic(auto)]

ghost use Rattle.std.specs.Prelude.{◌≡◌, ◌&&◌, ◌≤◌, leb, ltb, length, get_or, MatchOption};
ghost use Rattle.laws.specs.Basic.{bit};
ghost use Rattle.rules.specs.Refusals.{number_of};
ghost use Rattle.rules.specs.Desk.{max_desk_net};
ghost use Rattle.desk_record.specs.OnRecord.{desk_size, change_refusal, is_locked, mark_on, set_on, lock_on, unlock_on, open_with, is_readable};

use rules::{Checked, Refusal};

// A desk: the bytes of its net and how many they are, the counts of its stages and layers, the layer of each stage, and 1 for each stage that is locked.
// A count of 0 stages says that it was never opened, so that cleared memory is a fresh desk. Numbers only: every content is a record.
#[repr(C)]
#[derive(Clone, Copy)]
pub struct Desk {
    pub used: u64,
    pub stages: u64,
    pub layers: u64,
    pub net: [u8; rules::MAX_DESK_NET],
    pub plan: [u8; rules::MAX_STAGES],
    pub locks: [u8; rules::MAX_STAGES],
}

// What a change hands back: the desk afterwards and the refusal number, 0 if it is accepted.
#[derive(Clone, Copy)]
pub struct Changed {
    pub desk: Desk,
    // Kept: the desk call hands this number to C.
    pub answer: u8,
}

// What opening hands back: the desk afterwards, and the reader's counts or the refusal number.
#[derive(Clone, Copy)]
pub struct Opened {
    pub desk: Desk,
    pub answer: Checked,
}

// The bytes of a record in C's layout, for hosts that cannot ask their compiler.
pub fn desk_size() -> u64
    ensures { result ≡ desk_size }
{
    4248
}

// Whether a number is below a count on the desk and below the places that there are: no content of a desk leads beyond its arrays.
fn below(x: u64, count: u64, places: u64) -> bool
    ensures { result ≡ (ltb x count && ltb x places) }
{
    x < count && x < places
}

// Whether a stage is locked; one that has no place is not.
fn is_locked(locks: [u8; rules::MAX_STAGES], stage: u64) -> bool
    ensures { result ≡ is_locked (get_or locks stage 0) }
{
    stage < rules::MAX_STAGES as u64 && locks[stage as usize] != 0
}

// Why a change is refused, if it is: 16 for a desk never opened, then 7 for the stage, then 8 for the layer, then 17 for the lock.
#[tactic(auto, unfolding(crate::specs::OnRecord::change_refusal))]
fn change_refusal(opened: bool, stage: bool, layer: bool, locked: bool) -> Option<Refusal>
    ensures { MatchOption result (change_refusal opened stage layer locked ≡ 0) (λ why. number_of why ≡ change_refusal opened stage layer locked) }
{
    if !opened {
        return Some(Refusal::NeverOpened);
    }
    if !stage {
        return Some(Refusal::WrongStages);
    }
    if !layer {
        return Some(Refusal::WrongLayer);
    }
    if locked {
        return Some(Refusal::Locked);
    }
    None
}

// A refused change: its number, and the desk as it was.
fn refused(v: Desk, why: Refusal) -> Changed
    ensures { result ≡ record { desk = v; answer = number_of why } }
{
    Changed {
        desk: v,
        answer: u8::from(why),
    }
}

// Setting: the stage is put on the layer, where no number is due.
pub fn set_value(v: Desk, stage: u64, layer: u64) -> Changed
    ensures { result ≡ set_on v stage layer }
{
    let there = below(stage, v.stages, rules::MAX_STAGES as u64);
    let fits = below(layer, v.layers, rules::MAX_LAYERS as u64);
    let locked = is_locked(v.locks, stage);
    if let Some(why) = change_refusal(v.stages != 0, there, fits, locked) {
        return refused(v, why);
    }
    let mut w = v;
    w.plan[stage as usize] = layer as u8;
    Changed { desk: w, answer: 0 }
}

// A lock put on a stage or taken off it, where no number is due: no layer is named, and a lock is no hindrance.
fn mark_value(v: Desk, stage: u64, lock: bool) -> Changed
    ensures { result ≡ mark_on v stage (bit lock) }
{
    let there = below(stage, v.stages, rules::MAX_STAGES as u64);
    if let Some(why) = change_refusal(v.stages != 0, there, true, false) {
        return refused(v, why);
    }
    let mut w = v;
    w.locks[stage as usize] = u8::from(lock);
    Changed { desk: w, answer: 0 }
}

// Locking.
// Kept: two names for `mark_value`: the C interface has a call for each.
pub fn lock_value(v: Desk, stage: u64) -> Changed
    ensures { result ≡ lock_on v stage }
{
    mark_value(v, stage, true)
}

// Unlocking.
// Kept: as `lock_value`.
pub fn unlock_value(v: Desk, stage: u64) -> Changed
    ensures { result ≡ unlock_on v stage }
{
    mark_value(v, stage, false)
}

// Whether a desk takes a net of so many bytes; if not, the number is 15.
pub fn takes(bytes: usize) -> bool
    ensures { result ≡ leb bytes max_desk_net }
{
    bytes <= rules::MAX_DESK_NET
}

// Opening with bytes that a desk takes, by what checking found in them: counts of 0 stages are a refusal, for a net has at least one, and keep the desk.
// The bytes are put over the first of those that stood there.
#[tactic(auto, unfolding(crate::specs::OnRecord::open_with))]
pub fn open_with(v: Desk, bytes: &[u8], found: Checked) -> Opened
    requires { length bytes.now ≤ max_desk_net }
    ensures { result ≡ open_with v bytes.now found }
{
    if found.stages == 0 {
        return Opened {
            desk: v,
            answer: found,
        };
    }
    let mut net = v.net;
    net[..bytes.len()].copy_from_slice(bytes);
    let mut w = v;
    w.used = bytes.len() as u64;
    w.stages = found.stages;
    w.layers = found.layers;
    w.net = net;
    w.plan = [0; rules::MAX_STAGES];
    w.locks = [0; rules::MAX_STAGES];
    Opened {
        desk: w,
        answer: found,
    }
}

// Whether the counts of a desk may be those of an open one: stages, but no more than there are places for, and no more bytes than that.
#[tactic(auto, unfolding(crate::specs::OnRecord::is_readable))]
pub fn is_readable(used: u64, stages: u64) -> bool
    ensures { result ≡ is_readable used stages }
{
    stages != 0 && stages <= rules::MAX_STAGES as u64 && used <= rules::MAX_DESK_NET as u64
}
