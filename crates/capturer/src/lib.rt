// The program of captures: makes a capture from a trace, plain or for eyes, or a trace from a capture. What it makes stands beside the name that it
// is to have until it is whole, so that whatever goes wrong leaves what stood there as it was. What is wrong is said on standard error.
#![tactic(auto)]

mod copying;
mod names;
mod trouble;

ghost use Rattle.std.specs.Prelude.{◌≤◌, length};

use crate::names::text_of;
use crate::trouble::{File, NotMade, Trouble};
use programs::is_given;
use std::env::Env;
use std::fs;
use std::io::{IsTerminal, Print, Read};
use text::Page;
use windows::front;

// The longest name: what stands behind it until the file is whole has to fit, too. Names stand in memory of a fixed size, as there is no heap.
const NAME: usize = 4089;

// Gives a file that is whole its name, and removes any other.
fn settle(
    rt: HostRuntime,
    made: Result<(), Trouble>,
    part: &str,
    target: &str,
) -> Result<(), Trouble> {
    let named = made.and_then(|()| fs::rename(&rt, part, target).map_err(|_| Trouble::Unnamed));
    if named.is_err() {
        let _ = fs::remove_file(&rt, part);
    }
    named
}

// Fills the new file, where its name can be had, and closes it: in a folder in which it could be made, what cannot be opened stands there itself.
// What is made, from what and under which name goes down as it is: a struct of two borrowed things would be no plainer.
fn fill<R: Read>(
    rt: HostRuntime,
    made: File,
    input: &mut R,
    mut output: fs::File,
    target: &str,
) -> Result<(), Trouble> {
    if !names::is_free(rt, target) {
        return Err(Trouble::Taken);
    }
    copying::copy_all(made, input, &mut output)
}

// Makes the file beside its name, and gives it that.
fn make_beside<R: Read>(
    rt: HostRuntime,
    made: File,
    input: &mut R,
    target: &str,
) -> Result<(), Trouble>
    requires { length target.now ≤ 4089 }
{
    let mut name = [0u8; 4096];
    let mut page = Page {
        out: &mut name,
        at: 0,
    };
    page.words(target.as_bytes());
    page.words(b".part0");
    let end = page.at;
    let Some(output) = names::new_file(rt, &mut name, end - 1) else {
        return Err(Trouble::Unmade);
    };
    let filled = fill(rt, made, input, output, target);
    settle(rt, filled, text_of(front(&name, end)), target)
}

// From an open file. An empty name is none.
fn make_from<R: Read + IsTerminal>(
    rt: HostRuntime,
    made: File,
    input: &mut R,
    target: &str,
) -> Result<(), Trouble> {
    if input.is_terminal() {
        return Err(Trouble::Terminal);
    }
    if target.is_empty() || target.len() > NAME {
        return Err(Trouble::Unmade);
    }
    make_beside(rt, made, input, target)
}

// From the file of a name, or from standard input.
fn make_named(rt: HostRuntime, made: File, source: &[u8], target: &[u8]) -> Result<(), Trouble> {
    if text_of(source) == "-" {
        return make_from(rt, made, &mut rt.stdin(), text_of(target));
    }
    if !source.is_empty() && source == target {
        return Err(Trouble::SameName);
    }
    let mut input = fs::open(&rt, text_of(source)).map_err(|_| Trouble::Unopened)?;
    make_from(rt, made, &mut input, text_of(target))
}

// The two names are the second and the third word. One that is longer than any name comes out empty, and no file is named so.
fn make(rt: HostRuntime, file: File) {
    let mut source = [0u8; 4096];
    let mut target = [0u8; 4096];
    let source_length = rt.arg(2, &mut source).unwrap_or(0);
    let target_length = rt.arg(3, &mut target).unwrap_or(0);
    if let Err(why) = make_named(rt, file, &source[..source_length], &target[..target_length]) {
        let not_made = NotMade { file, why };
        let _ = eprintln!(rt; "mmpcap: {not_made}");
    }
}

// What the first word asks for.
fn asked_by(word: &str) -> Option<File> {
    match word {
        "write" => Some(File::Capture),
        "show" => Some(File::CaptureForEyes),
        "read" => Some(File::Trace),
        _ => None,
    }
}

// The program: write, show or read, and the two names.
pub fn run(rt: HostRuntime) {
    let mut word = [0u8; 8];
    let length = rt.arg(1, &mut word).unwrap_or(0);
    if is_given(rt.arg(3, &mut [])) && !is_given(rt.arg(4, &mut [])) {
        if let Some(file) = asked_by(text_of(&word[..length])) {
            make(rt, file);
            return;
        }
    }
    let _ = eprintln!(rt;
        "mmpcap: a capture is made from a trace or read back, as in: mmpcap write row.trace row.pcap, or: mmpcap read row.pcap row.trace"
    );
}
