//! What a byte may be: the tables that the reader goes by.
ghost use Rattle.std.specs.Prelude.{◌≡◌, ◌<◌};
ghost use Rattle.bt_json.specs.Grammar.{is_blank};
ghost use Rattle.bt_json.specs.inner.Reading.{may_end};
ghost use Rattle.bt_json.specs.inner.Bytes.{kind_of, mark_of, figure_in};

/// What a byte may be between the tokens of a text, or at a token's front.
#[derive(Clone, Copy)]
pub enum Kind {
    Blank,
    ListOpens,
    ListCloses,
    ObjectOpens,
    ObjectCloses,
    Comma,
    Colon,
    Quote,
    Minus,
    Digit,
    LetterT,
    LetterF,
    LetterN,
    Other,
}

/// What a byte may be between the tokens of a text, or at a token's front.
#[tactic(auto, unfolding(crate::specs::inner::Bytes::kind_of))]
pub fn kind_of(byte: u8) -> Kind
    ensures { result ≡ kind_of byte }
{
    match byte {
        b' ' | b'\t' | b'\n' | b'\r' => Kind::Blank,
        b'[' => Kind::ListOpens,
        b']' => Kind::ListCloses,
        b'{' => Kind::ObjectOpens,
        b'}' => Kind::ObjectCloses,
        b',' => Kind::Comma,
        b':' => Kind::Colon,
        b'"' => Kind::Quote,
        b'-' => Kind::Minus,
        b'0'..=b'9' => Kind::Digit,
        b't' => Kind::LetterT,
        b'f' => Kind::LetterF,
        b'n' => Kind::LetterN,
        _ => Kind::Other,
    }
}

/// What a byte may be in a number.
#[derive(Clone, Copy)]
pub enum Mark {
    Figure(u8),
    Point,
    LetterE,
    PlusSign,
    MinusSign,
    /// It goes on no number.
    Over,
}

/// What a byte may be in a number.
#[tactic(auto, unfolding(crate::specs::inner::Bytes::mark_of))]
pub fn mark_of(byte: u8) -> Mark
    ensures mark { result ≡ mark_of byte }
    ensures digit { figure_in result < 10 }
{
    match byte {
        b'0'..=b'9' => Mark::Figure(byte - b'0'),
        b'.' => Mark::Point,
        b'e' | b'E' => Mark::LetterE,
        b'+' => Mark::PlusSign,
        b'-' => Mark::MinusSign,
        _ => Mark::Over,
    }
}

/// How far a number is written.
#[derive(Clone, Copy)]
pub enum Phase {
    BeforeWhole,
    AfterZero,
    InWhole,
    AfterPoint,
    InFraction,
    AfterLetter,
    AfterSign,
    InPower,
}

/// Whether the byte is a space, a tab, a line feed or a carriage return.
pub fn is_blank(byte: u8) -> bool
    ensures { result ≡ is_blank byte }
{
    matches!(byte, b' ' | b'\t' | b'\n' | b'\r')
}

/// Whether a number may end that is written so far.
pub fn may_end(phase: Phase) -> bool
    ensures { result ≡ may_end phase }
{
    matches!(
        phase,
        Phase::AfterZero | Phase::InWhole | Phase::InFraction | Phase::InPower
    )
}
