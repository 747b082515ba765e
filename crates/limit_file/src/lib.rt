// A file of limits: its start tags, one function for each element. The layout is in specs/Layout.
#![tactic(auto)]

pub mod figures;

ghost use Rattle.std.specs.Prelude.{◌≡◌};
ghost use Rattle.grammar.specs.Reader.{with, tag_at, childless_at, element_at};
ghost use Rattle.grammar.specs.Found.{place_of, found};
ghost use Rattle.limit_file.specs.Layout.{of_request, of_account, of_group, of_contract, instrument};
ghost use Rattle.limit_file.specs.Tags.{request_tag, account_tag, group_tag, contract_tag, instrument_tag};

use crate::figures::{GroupLimits, Limits};
use grammar::attributes::or_none;
use grammar::bytes::Cursor;
use grammar::tags::Inside;

// What an element says of itself: its number, its limits where it has any, and how many others it holds.
#[derive(Clone, Copy)]
pub struct AccountTag {
    pub account: u64,
    pub groups: u64,
}

#[derive(Clone, Copy)]
pub struct GroupTag {
    pub group: u64,
    pub limits: Option<GroupLimits>,
    pub contracts: u64,
}

#[derive(Clone, Copy)]
pub struct ContractTag {
    pub contract: u64,
    pub limits: Option<Limits>,
    pub instruments: u64,
}

#[derive(Clone, Copy)]
pub struct InstrumentTag {
    pub instrument: u64,
    pub limits: Option<Limits>,
}

// SetLimRqt: how many accounts it holds.
#[tactic(auto, unfolding(grammar::specs::Reader::tag_at, grammar::specs::Reader::attributes_at))]
pub fn request_tag<'a>(at: &Cursor<'a>) -> Option<(u64, Cursor<'a>)>
    ensures { result ≡ found at.now.bytes (with request_tag (tag_at at.now.bytes "SetLimRqt" of_request at.now.at)) }
{
    let name = at.literal(b"<SetLimRqt")?;
    let firm = name.text(b"BrkFrmId=\"")?;
    firm.number(b"NAccts=\"")
}

// AcctLmt.
#[tactic(auto, unfolding(grammar::specs::Reader::tag_at, grammar::specs::Reader::attributes_at))]
pub fn account_tag<'a>(at: &Cursor<'a>) -> Option<(AccountTag, Cursor<'a>)>
    ensures { result ≡ found at.now.bytes (with account_tag (tag_at at.now.bytes "AcctLmt" of_account at.now.at)) }
{
    let name = at.literal(b"<AcctLmt")?;
    let (account, at) = name.number(b"Acct=\"")?;
    let sort = at.text(b"AcctType=\"")?;
    let (groups, at) = sort.number(b"NEqvIxmLmtCfg=\"")?;
    Some((AccountTag { account, groups }, at))
}

// EqvIxmLmt.
#[tactic(auto, unfolding(grammar::specs::Reader::tag_at, grammar::specs::Reader::attributes_at))]
pub fn group_tag<'a>(at: &Cursor<'a>) -> Option<(GroupTag, Cursor<'a>)>
    ensures { result ≡ found at.now.bytes (with group_tag (tag_at at.now.bytes "EqvIxmLmt" of_group at.now.at)) }
{
    let name = at.literal(b"<EqvIxmLmt")?;
    let (group, at) = name.number(b"EqvIxm=\"")?;
    let (limits, at) = or_none(GroupLimits::read(&at), &at);
    let (contracts, at) = at.number(b"NContrtLmtCfg=\"")?;
    let tag = GroupTag {
        group,
        limits,
        contracts,
    };
    Some((tag, at))
}

// ContrtLmt. Its attributes and limits are others than a group's, so that its tag is read by a function of its own.
#[tactic(auto, unfolding(grammar::specs::Reader::tag_at, grammar::specs::Reader::attributes_at))]
pub fn contract_tag<'a>(at: &Cursor<'a>) -> Option<(ContractTag, Cursor<'a>)>
    ensures { result ≡ found at.now.bytes (with contract_tag (tag_at at.now.bytes "ContrtLmt" of_contract at.now.at)) }
{
    let name = at.literal(b"<ContrtLmt")?;
    let (contract, at) = name.number(b"Contrt=\"")?;
    let (limits, at) = or_none(Limits::read(&at), &at);
    let (instruments, at) = at.number(b"NIxmLmtCfg=\"")?;
    let tag = ContractTag {
        contract,
        limits,
        instruments,
    };
    Some((tag, at))
}

// The place behind an IxmLmt, which holds no others, from behind its attributes on.
#[tactic(auto, unfolding(grammar::specs::Reader::childless_at, grammar::specs::Inside::inside_at))]
fn instrument_end<'a>(at: &Cursor<'a>) -> Option<Cursor<'a>>
    ensures { result ≡ place_of at.now.bytes (childless_at at.now.bytes "IxmLmt" at.now.at) }
{
    match at.inside()? {
        Inside::Closed(next) => Some(next),
        Inside::Holds(at) => at.literal(b"</IxmLmt>"),
    }
}

// IxmLmt, whole.
#[tactic(auto, unfolding(grammar::specs::Reader::element_at, grammar::specs::Reader::tag_at, grammar::specs::Reader::attributes_at))]
pub fn instrument_at<'a>(at: &Cursor<'a>) -> Option<(InstrumentTag, Cursor<'a>)>
    ensures { result ≡ found at.now.bytes (with instrument_tag (element_at at.now.bytes instrument at.now.at)) }
{
    let name = at.literal(b"<IxmLmt")?;
    let asset = name.text(b"Asset=\"")?;
    let sort = asset.text(b"SecTyp=\"")?;
    let (instrument, at) = sort.number(b"Sym=\"")?;
    let (limits, at) = or_none(Limits::read(&at), &at);
    let next = instrument_end(&at)?;
    Some((InstrumentTag { instrument, limits }, next))
}
