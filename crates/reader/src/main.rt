// Reads n, k, L, G and the reliabilities from standard input, and writes the list or the refusal to standard output.
// Where one of them fails, a sentence on standard error says so.

#![tactic(auto)]

use alphabet::Alphabet;
use std::io::Write;

// A sentence that cannot be written either is lost.
fn answer<W: Write, E: Write>(input: &[u8], output: &mut W, errors: &mut E) {
    let mut out = [0u8; output::ROOM];
    let end = output::write(Alphabet::Sixteen, input, &mut out);
    if streams::write_all(output, &out[..end]).is_err() {
        let _ = streams::write_all(errors, b"reader: the answer cannot be written\n");
    }
}

fn main(rt: HostRuntime) {
    let mut input = [0u8; output::LONGEST_OF_SIXTEEN];
    let Ok(count) = streams::read_full(&mut rt.stdin(), &mut input) else {
        let _ = streams::write_all(&mut rt.stderr(), b"reader: the input cannot be read\n");
        return;
    };
    answer(&input[..count], &mut rt.stdout(), &mut rt.stderr());
}
