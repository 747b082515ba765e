// A file of limits loaded to the memory of a sound desk: read once, each entry asked and worked as it is met.
#![tactic(auto)]

pub mod elements;
pub mod progress;

ghost use Rattle.std.specs.Prelude.{◌≡◌};
ghost use Rattle.grammar.specs.Place.{place};
ghost use Rattle.grammar.specs.Document.{file_starts, file_ends};
ghost use Rattle.limit_file.specs.Layout.{limit_file};
ghost use Rattle.memory_soundness.specs.SoundMemory.{SoundMemory};
ghost use Rattle.memory_loading.specs.Passing.{FileRead, Loaded};

use crate::elements::read_request;
use crate::progress::Progress;
use grammar::bytes::Cursor;
use limits::answer::{Answer, Refusal};

// The place behind the declaration, which may be missing.
fn file_starts<'a>(s: &'a [u8]) -> Cursor<'a>
    ensures { result ≡ place s.now (file_starts limit_file s.now) }
{
    let start = Cursor::new(s);
    start
        .literal(b"<?xml version=\"1.0\" encoding=\"iso-8859-1\"?>")
        .unwrap_or(start)
}

// Does the file end behind `at`, with blanks, the root's end tag and blanks?
#[tactic(auto, unfolding(grammar::specs::Document::file_ends))]
fn file_ends(at: &Cursor) -> bool
    ensures { result ≡ file_ends limit_file at.now.bytes at.now.at }
{
    at.past_blanks()
        .literal(b"</FIXML>")
        .is_some_and(|end| end.past_blanks().at_end())
}

// What is found of the request in the root; nothing where the bytes are no file of limits.
fn read_file(m: &mut [u8], s: &[u8]) -> Option<Progress>
    requires { SoundMemory m.old }
    ensures { FileRead m.old s.now m.new result }
{
    let root = file_starts(s).past_blanks().literal(b"<FIXML>")?;
    let (progress, end) = read_request(m, &root.past_blanks())?;
    if !file_ends(&end) {
        return None;
    }
    Some(progress)
}

// Asks 25, 26, and 7 to 9 of each entry; with an acceptance every LIMIT of the file is worked, with a refusal some may be.
pub fn load(m: &mut [u8], s: &[u8]) -> Answer
    requires { SoundMemory m.old }
    ensures { Loaded m.old s.now m.new result }
{
    let progress = read_file(m, s).ok_or(Refusal::NoFileOfLimits)?;
    if !progress.right {
        return Err(Refusal::WrongCountOrPlace);
    }
    progress.first
}
