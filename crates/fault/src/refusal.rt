ghost use Rattle.std.specs.Prelude.{◌≡◌};
ghost use Rattle.fault.specs.Refusals.{layer_of, number_of};

// The part of the runtime that a refusal comes from.
#[derive(Clone, Copy, PartialEq, Eq, Debug)]
pub enum Layer {
    Record,
    Page,
    Memory,
    Right,
    Stack,
    Owner,
    Draft,
    Map,
    Text,
}

// Every reason to refuse, in the order of the numbers.
#[derive(Clone, Copy, PartialEq, Eq, Debug)]
pub enum Refusal {
    RecordLength = 1,
    UnknownCode,
    FieldRange,
    PageEnd,
    AddressRange,
    OutsideMemory,
    Misaligned,
    WrongPageKind,
    MissingBit,
    LevelTooLow,
    NotADoor,
    StackFull,
    StackEmpty,
    BadSpan,
    DeadSource,
    ShortLife,
    NotOwner,
    NotPrivileged,
    CounterSpent,
    CounterOut,
    DraftNumber,
    DraftTag,
    DraftBits,
    DraftRepeat,
    DraftFull,
    MapStorage,
    BadText,
}

// The refusal's number, 1 to 27.
impl From<Refusal> for u8 {
    ghost from_gives = { λ refusal number. number ≡ number_of refusal };

    fn from(refusal: Refusal) -> u8 {
        refusal as u8
    }
}

impl Refusal {
    // The layer that gives this refusal.
    pub fn layer(self) -> Layer
        ensures { result ≡ layer_of self }
    {
        match self {
            Refusal::RecordLength | Refusal::UnknownCode | Refusal::FieldRange | Refusal::PageEnd =>
                Layer::Record,
            Refusal::AddressRange
            | Refusal::Misaligned
            | Refusal::WrongPageKind
            | Refusal::MissingBit => Layer::Page,
            Refusal::OutsideMemory => Layer::Memory,
            Refusal::LevelTooLow
            | Refusal::NotADoor
            | Refusal::BadSpan
            | Refusal::DeadSource
            | Refusal::ShortLife => Layer::Right,
            Refusal::StackFull | Refusal::StackEmpty => Layer::Stack,
            Refusal::NotOwner
            | Refusal::NotPrivileged
            | Refusal::CounterSpent
            | Refusal::CounterOut => Layer::Owner,
            Refusal::DraftNumber
            | Refusal::DraftTag
            | Refusal::DraftBits
            | Refusal::DraftRepeat
            | Refusal::DraftFull => Layer::Draft,
            Refusal::MapStorage => Layer::Map,
            Refusal::BadText => Layer::Text,
        }
    }
}
