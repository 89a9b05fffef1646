// What the test programs print of a text: whether it is the one expected.
#![tactic(auto)]

use std::io;

// Prints a name and `ok`, or the text that came instead.
pub fn compare(rt: &impl Print, name: &[u8], text: &[u8], expected: &[u8]) -> io::Result<()> {
    rt.write_all(name)?;
    if text == expected {
        rt.write_all(b": ok\n")
    } else {
        rt.write_all(b": not expected:\n")?;
        rt.write_all(text)
    }
}
