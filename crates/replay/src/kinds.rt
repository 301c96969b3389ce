// What a record asks for, and what call 12 sets, by their numbers (docs/REPLAY.md).
ghost use Rattle.replay.specs.Kinds.{NamesCall, NamesSetting};

// A call on a unit.
#[derive(Clone, Copy)]
pub enum Call {
    Open,
    Send,
    Arrive,
    Request,
    Copy,
    Take,
    ToTake,
    FreePlaces,
    KeptNumbers,
    MissingOf,
    WaitingOf,
    IsSound,
    Set,
}

// What call 12 sets: a number of the unit, of row k and column j, or of the message at position k.
#[derive(Clone, Copy)]
pub enum Setting {
    Seq,
    Req,
    Heard,
    Buf,
    Al,
    Pal,
    Me,
    N,
    W,
    Cid,
    MessageSeq,
    MessageLength,
    MessageAck,
    Place,
}

// A number that names nothing.
#[derive(Clone, Copy)]
pub struct Unknown(pub u8);

impl TryFrom<u8> for Call {
    type Error = Unknown;

    ghost try_from_gives = { NamesCall };

    fn try_from(number: u8) -> Result<Self, Unknown> {
        match number {
            0 => Ok(Call::Open),
            1 => Ok(Call::Send),
            2 => Ok(Call::Arrive),
            3 => Ok(Call::Request),
            4 => Ok(Call::Copy),
            5 => Ok(Call::Take),
            6 => Ok(Call::ToTake),
            7 => Ok(Call::FreePlaces),
            8 => Ok(Call::KeptNumbers),
            9 => Ok(Call::MissingOf),
            10 => Ok(Call::WaitingOf),
            11 => Ok(Call::IsSound),
            12 => Ok(Call::Set),
            _ => Err(Unknown(number)),
        }
    }
}

impl TryFrom<u8> for Setting {
    type Error = Unknown;

    ghost try_from_gives = { NamesSetting };

    fn try_from(number: u8) -> Result<Self, Unknown> {
        match number {
            0 => Ok(Setting::Seq),
            1 => Ok(Setting::Req),
            2 => Ok(Setting::Heard),
            3 => Ok(Setting::Buf),
            4 => Ok(Setting::Al),
            5 => Ok(Setting::Pal),
            6 => Ok(Setting::Me),
            7 => Ok(Setting::N),
            8 => Ok(Setting::W),
            9 => Ok(Setting::Cid),
            10 => Ok(Setting::MessageSeq),
            11 => Ok(Setting::MessageLength),
            12 => Ok(Setting::MessageAck),
            13 => Ok(Setting::Place),
            _ => Err(Unknown(number)),
        }
    }
}
