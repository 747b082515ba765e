// The elements of a file, nested as its layout is: each is read, counted and entered, and then what it holds. What they share is
// `read_children`; an impl says what an element hands on to those in it.
ghost use Rattle.std.specs.Prelude.{◌≡◌};
ghost use Rattle.grammar.specs.Grammar.{Element, Value};
ghost use Rattle.grammar.specs.Reader.{closing};
ghost use Rattle.grammar.specs.Readable.{name_of};
ghost use Rattle.limit_file.specs.Layout.{instrument, contract, group, account, request};
ghost use Rattle.memory_soundness.specs.SoundMemory.{SoundMemory};
ghost use Rattle.memory_loading.specs.Entries.{instrument_entries, contract_entries, group_entries, account_entries, entries};
ghost use Rattle.memory_loading.specs.Entries.{instrument_counts, contract_counts, group_counts, account_counts, counts_right};
ghost use Rattle.memory_loading.specs.Passing.{beginning, ElementRead, ChildrenRead};

use crate::progress::{Accounts, Contracts, Groups, Instruments, Progress};
use grammar::bytes::Cursor;
use grammar::tags::Inside;
use limit_file::{account_tag, contract_tag, group_tag, instrument_at, request_tag};

// The elements that another one holds.
pub trait Children {
    ghost use Rattle.std.specs.Prelude.{Bool, List};
    ghost use Rattle.memory_loading.specs.Entries.{Entry};

    // Their layout, the entries of one and whether its counts are right, and the layout of the element that holds them.
    ghost layout: { Element };

    ghost entries: { Self → Value layout → List Entry };

    ghost counts: { Value layout → Bool };

    ghost holder: { Element };

    // The end tag of the element that holds them.
    fn end_tag(&self) -> &'static [u8]
        ensures { result.now ≡ closing (name_of holder) };

    // One of them, read up to a place, with what is found by then; or none.
    fn read<'a>(
        &self,
        m: &mut [u8],
        at: &Cursor<'a>,
        before: Progress,
    ) -> Option<(Progress, Cursor<'a>)>
        requires { SoundMemory m.old }
        ensures { ElementRead layout (entries self.now) counts at.now m.old before m.new result };
}

// All that an element holds, from behind its attributes on; it says how many they are.
pub fn read_children<'a, C: Children>(
    children: &C,
    said: u64,
    m: &mut [u8],
    at: &Cursor<'a>,
    before: Progress,
) -> Option<(Progress, Cursor<'a>)>
    requires { SoundMemory m.old }
    ensures { ChildrenRead C.layout (C.entries children.now) C.counts (name_of C.holder) said at.now m.old before m.new result }
{
    let mut place = match at.inside()? {
        Inside::Closed(next) => return Some((before.and(said == 0), next)),
        Inside::Holds(first) => first,
    };
    let mut count: u64 = 0;
    let mut progress = before;
    loop {
        if let Some(next) = place.literal(children.end_tag()) {
            return Some((progress.and(said == count), next));
        }
        let (after, next) = children.read(m, &place, progress)?;
        place = next.past_blanks();
        count += 1;
        progress = after;
    }
}

// IxmLmt, in a ContrtLmt.
impl Children for Instruments {
    ghost layout = { instrument };

    ghost entries = { λ i. instrument_entries i.account i.contract };

    ghost counts = { instrument_counts };

    ghost holder = { contract };

    fn end_tag(&self) -> &'static [u8] {
        b"</ContrtLmt>"
    }

    fn read<'a>(
        &self,
        m: &mut [u8],
        at: &Cursor<'a>,
        before: Progress,
    ) -> Option<(Progress, Cursor<'a>)> {
        let (tag, next) = instrument_at(at)?;
        Some((self.enter(m, &tag, before), next))
    }
}

// ContrtLmt, in an EqvIxmLmt. Nothing of it is entered before its tag is known to end.
impl Children for Contracts {
    ghost layout = { contract };

    ghost entries = { λ c. contract_entries c.account c.group };

    ghost counts = { contract_counts };

    ghost holder = { group };

    fn end_tag(&self) -> &'static [u8] {
        b"</EqvIxmLmt>"
    }

    fn read<'a>(
        &self,
        m: &mut [u8],
        at: &Cursor<'a>,
        before: Progress,
    ) -> Option<(Progress, Cursor<'a>)> {
        let (tag, next) = contract_tag(at)?;
        next.inside()?;
        let progress = self.enter(m, &tag, before);
        let instruments = Instruments {
            account: self.account,
            contract: tag.contract,
        };
        read_children(&instruments, tag.instruments, m, &next, progress)
    }
}

// EqvIxmLmt, in an AcctLmt, likewise.
impl Children for Groups {
    ghost layout = { group };

    ghost entries = { λ g. group_entries g.account };

    ghost counts = { group_counts };

    ghost holder = { account };

    fn end_tag(&self) -> &'static [u8] {
        b"</AcctLmt>"
    }

    fn read<'a>(
        &self,
        m: &mut [u8],
        at: &Cursor<'a>,
        before: Progress,
    ) -> Option<(Progress, Cursor<'a>)> {
        let (tag, next) = group_tag(at)?;
        next.inside()?;
        let progress = self.enter(m, &tag, before);
        let contracts = Contracts {
            account: self.account,
            group: tag.group,
        };
        read_children(&contracts, tag.contracts, m, &next, progress)
    }
}

// AcctLmt, in a SetLimRqt.
impl Children for Accounts {
    ghost layout = { account };

    ghost entries = { λ a. account_entries };

    ghost counts = { account_counts };

    ghost holder = { request };

    fn end_tag(&self) -> &'static [u8] {
        b"</SetLimRqt>"
    }

    fn read<'a>(
        &self,
        m: &mut [u8],
        at: &Cursor<'a>,
        before: Progress,
    ) -> Option<(Progress, Cursor<'a>)> {
        let (tag, next) = account_tag(at)?;
        let progress = self.enter(m, &tag, before);
        let groups = Groups {
            account: tag.account,
        };
        read_children(&groups, tag.groups, m, &next, progress)
    }
}

// SetLimRqt, with nothing found before it.
pub fn read_request<'a>(m: &mut [u8], at: &Cursor<'a>) -> Option<(Progress, Cursor<'a>)>
    requires { SoundMemory m.old }
    ensures { ElementRead request entries counts_right at.now m.old beginning m.new result }
{
    let (accounts, next) = request_tag(at)?;
    let beginning = Progress {
        right: true,
        first: Ok(()),
    };
    read_children(&Accounts, accounts, m, &next, beginning)
}
