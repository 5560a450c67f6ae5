// The tables program: on standard output the powers of g, the logarithms and the labels. It reads nothing, and only writes what the crate
// `sheet` says.
#![tactic(auto)]

ghost use Rattle.std.specs.Prelude.{OnOk};
ghost use Rattle.std.specs.Io.KnownBytes.{Appends};
ghost use Rattle.sheet.specs.Sheet.{sheet};

use std::io;
use std::io::Write;

// Writes the text of the three tables, whole. A write that fails is the error, and maybe a part of the text is written.
fn print_sheet<W: Write>(to: &mut W) -> io::Result<()>
    ensures { OnOk result (Appends (W.contents to.old) (W.contents to.new) sheet) }
{
    let mut out = [0u8; 1992];
    let said = sheet::say(&mut out);
    to.write_all(&out[..said])
}

fn main(rt: HostRuntime) -> io::Result<()> {
    print_sheet(&mut rt.stdout())
}
