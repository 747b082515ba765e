// What is answered: an acceptance, or the refusal by the question that is answered no. The numbers are those of documents 01 and 02.
ghost use Rattle.std.specs.Prelude.{◌≡◌};
ghost use Rattle.limits.specs.Answers.{number_of, refusal_number};

#[derive(Clone, Copy, PartialEq, Eq, Debug)]
pub enum Refusal {
    MemoryTooShort,
    WrongSizes,
    UnknownName,
    WeightOutOfRange,
    NoSoundDesk,
    NoEvent,
    UnknownAccount,
    UnknownItem,
    FigureOutOfRange,
    AlreadyTrading,
    OrderNotFound,
    QuantityOutOfRange,
    DuplicateOrder,
    AccountBlocked,
    InstrumentBlocked,
    GroupBlocked,
    NoLimitsConfigured,
    NoPlaceFree,
    BuyTooLarge,
    SellTooLarge,
    InstrumentTooLong,
    InstrumentTooShort,
    GroupTooLong,
    GroupTooShort,
    NoFileOfLimits,
    WrongCountOrPlace,
}

pub type Answer = Result<(), Refusal>;

// The number of the question that is answered no.
impl From<Refusal> for u8 {
    ghost from_gives = { λ refusal n. n ≡ refusal_number refusal };

    fn from(refusal: Refusal) -> u8 {
        match refusal {
            Refusal::MemoryTooShort => 1,
            Refusal::WrongSizes => 2,
            Refusal::UnknownName => 3,
            Refusal::WeightOutOfRange => 4,
            Refusal::NoSoundDesk => 5,
            Refusal::NoEvent => 6,
            Refusal::UnknownAccount => 7,
            Refusal::UnknownItem => 8,
            Refusal::FigureOutOfRange => 9,
            Refusal::AlreadyTrading => 10,
            Refusal::OrderNotFound => 11,
            Refusal::QuantityOutOfRange => 12,
            Refusal::DuplicateOrder => 13,
            Refusal::AccountBlocked => 14,
            Refusal::InstrumentBlocked => 15,
            Refusal::GroupBlocked => 16,
            Refusal::NoLimitsConfigured => 17,
            Refusal::NoPlaceFree => 18,
            Refusal::BuyTooLarge => 19,
            Refusal::SellTooLarge => 20,
            Refusal::InstrumentTooLong => 21,
            Refusal::InstrumentTooShort => 22,
            Refusal::GroupTooLong => 23,
            Refusal::GroupTooShort => 24,
            Refusal::NoFileOfLimits => 25,
            Refusal::WrongCountOrPlace => 26,
        }
    }
}

// 0 for an acceptance, else the refusal's number. No `From`: neither type is of this crate.
pub fn number_of(answer: Answer) -> u8
    ensures { result ≡ number_of answer }
{
    match answer {
        Ok(()) => 0,
        Err(refusal) => u8::from(refusal),
    }
}
