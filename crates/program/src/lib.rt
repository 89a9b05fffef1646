// What the programs print: the line for the net that an input holds, of planning (01, Program) and of checking (01, Reading), and the report over the block
// that an input is (02, wish 2).
#![tactic(auto)]

ghost use Rattle.std.specs.Prelude.{◌≡◌, ◌++◌, ◌≤◌, ◌^◌, length, drop};
ghost use Rattle.io.specs.Counts.{IsPrefixLen};
ghost use Rattle.rules.specs.Grain.{max_exponent};
ghost use Rattle.rules.specs.Program.{program_line};
ghost use Rattle.rules.specs.Block.{report_text};
ghost use Rattle.line.specs.Length.{max_line};
ghost use Rattle.report_text.specs.Length.{max_report};
ghost use Rattle.program.specs.Checking.{check_line};

use line::{counts_line, plan_line, refused_line};
use report_text::write_report;

// 2^k: the grain.
// Kept: a power of 2 with a clause in whole numbers.
fn grain(k: u64) -> u64
    requires { k ≤ max_exponent }
    ensures { result ≡ 2 ^ k }
{
    1 << k
}

// The line for the net that the bytes hold, with the program's share 1/4, table of 8,192 entries and plan buffer of 64, at the front of `out`.
pub fn answer_line(net: &[u8], out: &mut [u8]) -> usize
    requires { max_line ≤ length out.old }
    ensures value { result ≡ length (program_line net.now) }
    ensures out_after { out.new ≡ program_line net.now ++ drop result out.old }
    ensures prefix_len { IsPrefixLen result out.new }
{
    let mut table = [0i64; rules::PROGRAM_TABLE];
    let mut plan = [0u8; rules::PROGRAM_ROOM];
    let answer = vorphiel::plan(
        net,
        rules::PROGRAM_P,
        rules::PROGRAM_Q,
        &mut table,
        &mut plan,
    );
    if answer.refusal != 0 {
        return refused_line(answer.refusal, out);
    }
    let counts = vorphiel::check(net);
    let stages = counts.stages as usize;
    let g = grain(answer.k);
    plan_line(answer.cost, g, answer.slack, &plan[..stages], out)
}

// The line of checking for the net that the bytes hold, at the front of `out`: its counts, or the number of the first fault. Answers its length.
pub fn check_line(net: &[u8], out: &mut [u8]) -> usize
    requires { max_line ≤ length out.old }
    ensures value { result ≡ length (check_line net.now) }
    ensures out_after { out.new ≡ check_line net.now ++ drop result out.old }
    ensures prefix_len { IsPrefixLen result out.new }
{
    let checked = vorphiel::check(net);
    if checked.refusal != 0 {
        return refused_line(checked.refusal, out);
    }
    counts_line(checked.nodes, checked.stages, checked.layers, out)
}

// The lines of the report over the block that the bytes are, at the front of `out`. Answers their length.
pub fn report_lines(block: &[u8], out: &mut [u8]) -> usize
    requires { max_report ≤ length out.old }
    ensures value { result ≡ length (report_text block.now) }
    ensures out_after { out.new ≡ report_text block.now ++ drop result out.old }
    ensures prefix_len { IsPrefixLen result out.new }
{
    let report = vorphiel::report(block);
    write_report(report, out)
}
