// The lines that the programs print (01, Program; the counts of 01, Reading), written into a buffer: their bytes are those of the definitions, and the
// bytes after them keep their values. Each also promises `IsPrefixLen`, so that a caller may lend `&out[..n]` with no proof of its own.
#![tactic(auto)]

ghost use Rattle.std.specs.Prelude.{◌≡◌, ◌++◌, ◌+◌, ◌*◌, ◌≤◌, length, drop};
ghost use Rattle.io.specs.Counts.{IsPrefixLen};
ghost use Rattle.rules.specs.Bytes.{max_stages};
ghost use Rattle.rules.specs.Program.{layer_numbers, plan_line, refused_line};
ghost use Rattle.text.specs.Placing.{Placed};
ghost use Rattle.line.specs.Length.{max_line};
ghost use Rattle.line.specs.Counted.{counts_line};

use text::{put, put_field, put_time};

// Puts the layers at `at` in stage order, a space before each, and answers where they end.
fn put_plan(plan: &[u8], out: &mut [u8], at: usize) -> usize
    requires { at + 4 * length plan.now ≤ length out.old }
    ensures placed { Placed (layer_numbers plan.now) at out.old out.new result }
    ensures upper_bound { result ≤ at + 4 * length plan.now }
{
    let mut next = at;
    for layer in plan {
        next = put_field(b" ", u64::from(*layer), out, next);
    }
    next
}

// Writes the line of an accepted net at the front of `out`: cost, g, slack and the layers in stage order. Answers its length.
#[tactic(auto, using(text::proofs::Decimal::number_length))]
pub fn plan_line(cost: u64, g: u64, slack: i64, plan: &[u8], out: &mut [u8]) -> usize
    requires { (length plan.now ≤ max_stages) × (max_line ≤ length out.old) }
    ensures value { result ≡ length (plan_line cost g slack plan.now) }
    ensures out_after { out.new ≡ plan_line cost g slack plan.now ++ drop result out.old }
    ensures prefix_len { IsPrefixLen result out.new }
{
    let mut at = put_field(b"cost ", cost, out, 0);
    at = put_field(b" grain ", g, out, at);
    at = put(b" slack ", out, at);
    at = put_time(slack, out, at);
    at = put(b" plan", out, at);
    at = put_plan(plan, out, at);
    put(b"\n", out, at)
}

// Writes the line of a refusal at the front of `out`. Answers its length.
// Kept: it takes any number, as its clause says; a narrower type would ask more of callers.
#[tactic(auto, using(text::proofs::Decimal::number_length))]
pub fn refused_line(r: u8, out: &mut [u8]) -> usize
    requires { max_line ≤ length out.old }
    ensures value { result ≡ length (refused_line r) }
    ensures out_after { out.new ≡ refused_line r ++ drop result out.old }
    ensures prefix_len { IsPrefixLen result out.new }
{
    let at = put_field(b"refused ", u64::from(r), out, 0);
    put(b"\n", out, at)
}

// Writes the line of the counts of a net at the front of `out`. Answers its length.
#[tactic(auto, using(text::proofs::Decimal::number_length))]
pub fn counts_line(nodes: u64, stages: u64, layers: u64, out: &mut [u8]) -> usize
    requires { max_line ≤ length out.old }
    ensures value { result ≡ length (counts_line nodes stages layers) }
    ensures out_after { out.new ≡ counts_line nodes stages layers ++ drop result out.old }
    ensures prefix_len { IsPrefixLen result out.new }
{
    let mut at = put_field(b"nodes ", nodes, out, 0);
    at = put_field(b" stages ", stages, out, at);
    at = put_field(b" layers ", layers, out, at);
    put(b"\n", out, at)
}
