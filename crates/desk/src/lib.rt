// The desk (02, wish 8) where its net's bytes are looked at: opening and reading, each on the record by value (crate `desk_record`). The open calls put what
// they hand back where the host lent the record (crate `lent_desk`). specs/ says which record stands for which desk in mind, and what every run of calls does.
#![tactic(auto)]

ghost use Rattle.std.specs.Prelude.{◌≡◌};
ghost use Rattle.desk.specs.OnDesk.{open_on, read_on};

use desk_record::{Desk, Opened, is_readable, open_with, takes};
use judging::{check, judge};
use rules::{Checked, Judged, Refusal};
use timing::judging_refused;

// Opening: 15, then 1 to 6.
pub fn open_value(v: Desk, bytes: &[u8]) -> Opened
    ensures { result ≡ open_on v bytes.now }
{
    if !takes(bytes.len()) {
        let long = Checked {
            refusal: u8::from(Refusal::TooLong),
            nodes: 0,
            stages: 0,
            layers: 0,
        };
        return Opened {
            desk: v,
            answer: long,
        };
    }
    let found = check(bytes);
    open_with(v, bytes, found)
}

// Cost and slack: what judging gives for the net and the plan on the desk; 16 also for counts that no opening leaves.
pub fn read_value(v: Desk) -> Judged
    ensures { result ≡ read_on v }
{
    if !is_readable(v.used, v.stages) {
        return judging_refused(u8::from(Refusal::NeverOpened));
    }
    let net = v.net;
    let plan = v.plan;
    let bytes = &net[..v.used as usize];
    let layers = &plan[..v.stages as usize];
    judge(bytes, layers)
}
