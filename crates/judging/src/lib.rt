// Checking and judging a net from its bytes: the refusals in their order, then the counts, or what the plan has.
#![tactic(auto)]

ghost use Rattle.std.specs.Prelude.{◌≡◌, length};
ghost use Rattle.rules.specs.Reading.{check};
ghost use Rattle.rules.specs.Judging.{judge};
ghost use Rattle.words.specs.Words.{word_count};
ghost use Rattle.judging.specs.Plans.{PlanOfNet};

use reader::{NetCounts, read};
use rules::{Checked, Judged, Refusal};
use timing::{are_layers, judged, judging_refused};
use words::{CHECK_WORDS, Net, WORDS};

// Checking (01, Reading): the counts of nodes, stages and layers of the net that the bytes hold, or the number of the first fault and zeros.
pub fn check(net: &[u8]) -> Checked
    ensures { result ≡ check net.now }
{
    let mut words = [0u32; CHECK_WORDS];
    match read(net, false, &mut words) {
        Ok(counts) => Checked {
            refusal: 0,
            nodes: (counts.nodes + 1) as u64,
            stages: counts.stages as u64,
            layers: counts.layers as u64,
        },
        Err(why) => Checked {
            refusal: u8::from(why),
            nodes: 0,
            stages: 0,
            layers: 0,
        },
    }
}

// The net that the bytes hold, where the plan is one of it, by the refusals in their order: 1 to 6 of the net, then 7, then 8.
fn read_with_plan(net: &[u8], plan: &[u8], words: &mut [u32]) -> Result<NetCounts, Refusal>
    requires { length words.old ≡ word_count }
    ensures { PlanOfNet net.now plan.now result words.new }
{
    let counts = read(net, true, words)?;
    if plan.len() != counts.stages {
        return Err(Refusal::WrongStages);
    }
    if !are_layers(plan, counts.layers) {
        return Err(Refusal::WrongLayer);
    }
    Ok(counts)
}

// Judging (01, Judging): the cost and slack of a plan, or a refusal number and zeros.
pub fn judge(net: &[u8], plan: &[u8]) -> Judged
    ensures { result ≡ judge net.now plan.now }
{
    let mut words = [0u32; WORDS];
    match read_with_plan(net, plan, &mut words) {
        Ok(counts) => {
            let net = Net::of(&words);
            judged(&net, plan)
        }
        Err(why) => judging_refused(u8::from(why)),
    }
}
