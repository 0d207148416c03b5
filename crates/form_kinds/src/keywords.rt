//! The words with which statements begin.
ghost use Rattle.std.specs.Prelude.{◌≡◌};
ghost use Rattle.form_kinds.specs.Keywords as w;

/// A word with which a statement begins.
#[derive(Clone, Copy, Debug, Drop, PartialEq, Eq)]
pub enum Keyword {
    ImplicitNone,
    Implicit,
    Integer,
    Logical,
    Dimension,
    Common,
    Parameter,
    External,
    Intrinsic,
    Save,
    Data,
    ElseIf,
    Else,
    EndIf,
    End,
    GoTo,
    Continue,
    Return,
    Stop,
    Call,
    Print,
    Read,
}

impl Keyword {
    /// The letters of the word.
    pub fn spelling(self) -> &'static [u8]
        ensures { result.now ≡ w.spelling self }
    {
        match self {
            Keyword::ImplicitNone => b"IMPLICITNONE".as_slice(),
            Keyword::Implicit => b"IMPLICIT".as_slice(),
            Keyword::Integer => b"INTEGER".as_slice(),
            Keyword::Logical => b"LOGICAL".as_slice(),
            Keyword::Dimension => b"DIMENSION".as_slice(),
            Keyword::Common => b"COMMON".as_slice(),
            Keyword::Parameter => b"PARAMETER".as_slice(),
            Keyword::External => b"EXTERNAL".as_slice(),
            Keyword::Intrinsic => b"INTRINSIC".as_slice(),
            Keyword::Save => b"SAVE".as_slice(),
            Keyword::Data => b"DATA".as_slice(),
            Keyword::ElseIf => b"ELSEIF".as_slice(),
            Keyword::Else => b"ELSE".as_slice(),
            Keyword::EndIf => b"ENDIF".as_slice(),
            Keyword::End => b"END".as_slice(),
            Keyword::GoTo => b"GOTO".as_slice(),
            Keyword::Continue => b"CONTINUE".as_slice(),
            Keyword::Return => b"RETURN".as_slice(),
            Keyword::Stop => b"STOP".as_slice(),
            Keyword::Call => b"CALL".as_slice(),
            Keyword::Print => b"PRINT".as_slice(),
            Keyword::Read => b"READ".as_slice(),
        }
    }

    fn begins(self, text: &[u8]) -> bool
        ensures { result ≡ w.begins self text.now }
    {
        text.starts_with(self.spelling())
    }

    /// What stands behind the word in a text that begins with it.
    pub fn behind(self, text: &[u8]) -> &[u8]
        ensures { result.now ≡ w.behind self text.now }
    {
        let length = self.spelling().len();
        if text.len() < length {
            return b"".as_slice();
        }
        let (_, rest) = text.split_at(length);
        rest
    }
}

/// The word with which a text begins.
pub fn keyword_of(text: &[u8]) -> Option<Keyword>
    ensures { result ≡ w.keyword_of text.now }
{
    if Keyword::ImplicitNone.begins(text) {
        Some(Keyword::ImplicitNone)
    } else if Keyword::Implicit.begins(text) {
        Some(Keyword::Implicit)
    } else if Keyword::Integer.begins(text) {
        Some(Keyword::Integer)
    } else if Keyword::Logical.begins(text) {
        Some(Keyword::Logical)
    } else if Keyword::Dimension.begins(text) {
        Some(Keyword::Dimension)
    } else if Keyword::Common.begins(text) {
        Some(Keyword::Common)
    } else if Keyword::Parameter.begins(text) {
        Some(Keyword::Parameter)
    } else if Keyword::External.begins(text) {
        Some(Keyword::External)
    } else if Keyword::Intrinsic.begins(text) {
        Some(Keyword::Intrinsic)
    } else if Keyword::Save.begins(text) {
        Some(Keyword::Save)
    } else if Keyword::Data.begins(text) {
        Some(Keyword::Data)
    } else if Keyword::ElseIf.begins(text) {
        Some(Keyword::ElseIf)
    } else if Keyword::Else.begins(text) {
        Some(Keyword::Else)
    } else if Keyword::EndIf.begins(text) {
        Some(Keyword::EndIf)
    } else if Keyword::End.begins(text) {
        Some(Keyword::End)
    } else if Keyword::GoTo.begins(text) {
        Some(Keyword::GoTo)
    } else if Keyword::Continue.begins(text) {
        Some(Keyword::Continue)
    } else if Keyword::Return.begins(text) {
        Some(Keyword::Return)
    } else if Keyword::Stop.begins(text) {
        Some(Keyword::Stop)
    } else if Keyword::Call.begins(text) {
        Some(Keyword::Call)
    } else if Keyword::Print.begins(text) {
        Some(Keyword::Print)
    } else if Keyword::Read.begins(text) {
        Some(Keyword::Read)
    } else {
        None
    }
}
