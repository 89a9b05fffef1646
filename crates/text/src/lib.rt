// The writer of text: words, numbers and times put into a buffer one after the other. Each function puts its bytes at a place, leaves all others as they
// were, and answers where they end (`Placed`); the bytes are those of rules/specs/Text.antt.
#![tactic(auto)]

ghost use Rattle.std.specs.Prelude.{◌+◌, ◌≤◌, length};
ghost use Rattle.rules.specs.Text.{decimal, number_field, decimal_z};
ghost use Rattle.text.specs.Placing.{Placed};

// Puts `text` at `at`, and answers where it ends.
pub fn put(text: &[u8], out: &mut [u8], at: usize) -> usize
    requires { at + length text.now ≤ length out.old }
    ensures { Placed text.now at out.old out.new result }
{
    let end = at + text.len();
    out[at..end].copy_from_slice(text);
    end
}

// Puts the decimal digits of `n` at `at`, and answers where they end.
// Kept: std's write! promises nothing of the bytes; here a clause says each of them.
pub fn put_number(n: u64, out: &mut [u8], at: usize) -> usize
    requires { at + length (decimal n) ≤ length out.old }
    ensures { Placed (decimal n) at out.old out.new result }
{
    let mut text = [0u8; 20];
    let k = io::decimal(n, &mut text);
    put(&text[..k], out, at)
}

// Puts a word at `at` and the digits of `n` after it, and answers where they end.
pub fn put_field(word: &[u8], n: u64, out: &mut [u8], at: usize) -> usize
    requires { at + (length word.now + length (decimal n)) ≤ length out.old }
    ensures placed { Placed (number_field word.now n) at out.old out.new result }
    ensures upper_bound { result ≤ at + (length word.now + 20) }
{
    let next = put(word, out, at);
    put_number(n, out, next)
}

// Puts a time at `at`: a minus sign if it is below 0, then the digits of its size. Answers where they end.
// Kept: as `put_number`.
pub fn put_time(t: i64, out: &mut [u8], at: usize) -> usize
    requires { at + length (decimal_z t) ≤ length out.old }
    ensures placed { Placed (decimal_z t) at out.old out.new result }
    ensures upper_bound { result ≤ at + 20 }
{
    let n = t.unsigned_abs();
    if t < 0 {
        let next = put(b"-", out, at);
        return put_number(n, out, next);
    }
    put_number(n, out, at)
}
