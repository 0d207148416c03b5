//! What statements give to names, and what of it excludes what.
ghost use Rattle.std.specs.Prelude.{◌≡◌};
ghost use Rattle.check_names.specs.Exclusions as x;

/// What a statement gives to a name: a role, a type, or a place.
#[derive(Clone, Copy, Debug, Drop, PartialEq, Eq)]
pub enum Attribute {
    /// A function's own name in its head.
    ResultVariable,
    /// In the list of the head.
    Dummy,
    /// By a declarator with bounds.
    Array,
    /// By PARAMETER.
    Constant,
    /// By CALL.
    Subroutine,
    /// By EXTERNAL.
    Procedure,
    /// By INTRINSIC, or by a list.
    Intrinsic,
    /// By a list.
    Function,
    /// By a type statement, or by the head.
    Typed,
    /// A place in COMMON.
    Common,
    /// A place among the items of DATA.
    Item,
    /// Named by IMPLICIT, where the name is a letter alone.
    Letter,
}

/// What has been given to a name.
#[derive(Clone, Copy, Drop)]
pub struct Given {
    pub result_variable: bool,
    pub dummy: bool,
    pub array: bool,
    pub constant: bool,
    pub subroutine: bool,
    pub procedure: bool,
    pub intrinsic: bool,
    pub function: bool,
    pub word: bool,
    pub common: bool,
    pub item: bool,
    pub letter: bool,
}

/// Nothing has been given.
pub fn nothing() -> Given
    ensures { result ≡ x.nothing }
{
    Given {
        result_variable: false,
        dummy: false,
        array: false,
        constant: false,
        subroutine: false,
        procedure: false,
        intrinsic: false,
        function: false,
        word: false,
        common: false,
        item: false,
        letter: false,
    }
}

fn has(given: Given, attribute: Attribute) -> bool
    ensures { result ≡ x.has given attribute }
{
    match attribute {
        Attribute::ResultVariable => given.result_variable,
        Attribute::Dummy => given.dummy,
        Attribute::Array => given.array,
        Attribute::Constant => given.constant,
        Attribute::Subroutine => given.subroutine,
        Attribute::Procedure => given.procedure,
        Attribute::Intrinsic => given.intrinsic,
        Attribute::Function => given.function,
        Attribute::Typed => given.word,
        Attribute::Common => given.common,
        Attribute::Item => given.item,
        Attribute::Letter => given.letter,
    }
}

/// What has been given, with this beside it.
pub fn with_attribute(given: Given, attribute: Attribute) -> Given
    ensures { result ≡ x.with_attribute given attribute }
{
    match attribute {
        Attribute::ResultVariable => Given {
            result_variable: true,
            ..given
        },
        Attribute::Dummy => Given {
            dummy: true,
            ..given
        },
        Attribute::Array => Given {
            array: true,
            ..given
        },
        Attribute::Constant => Given {
            constant: true,
            ..given
        },
        Attribute::Subroutine => Given {
            subroutine: true,
            ..given
        },
        Attribute::Procedure => Given {
            procedure: true,
            ..given
        },
        Attribute::Intrinsic => Given {
            intrinsic: true,
            ..given
        },
        Attribute::Function => Given {
            function: true,
            ..given
        },
        Attribute::Typed => Given {
            word: true,
            ..given
        },
        Attribute::Common => Given {
            common: true,
            ..given
        },
        Attribute::Item => Given {
            item: true,
            ..given
        },
        Attribute::Letter => Given {
            letter: true,
            ..given
        },
    }
}

fn is_called(given: Given) -> bool
    ensures { result ≡ x.is_called given }
{
    given.subroutine | given.procedure | given.intrinsic | given.function
}

fn is_placed(given: Given) -> bool
    ensures { result ≡ x.is_placed given }
{
    given.common | given.item
}

fn is_excluded(given: Given, attribute: Attribute) -> bool
    ensures { result ≡ x.is_excluded given attribute }
{
    let fixed = given.constant | given.result_variable;
    match attribute {
        Attribute::Array => fixed | is_called(given),
        Attribute::Constant => {
            given.array | given.dummy | given.result_variable | is_called(given) | is_placed(given)
        }
        Attribute::Dummy => fixed | given.intrinsic | given.function,
        Attribute::Subroutine => {
            given.array | fixed | given.intrinsic | given.function | is_placed(given)
        }
        Attribute::Procedure => given.array | fixed | given.intrinsic | is_placed(given),
        Attribute::Intrinsic => {
            let called = given.subroutine | given.procedure | given.function;
            given.array | given.dummy | fixed | called | is_placed(given)
        }
        Attribute::Function => {
            let called = given.subroutine | given.intrinsic;
            given.array | given.dummy | fixed | called | is_placed(given)
        }
        Attribute::ResultVariable => {
            given.array | given.dummy | given.constant | is_called(given)
        }
        Attribute::Common | Attribute::Item => given.constant | is_called(given),
        Attribute::Typed | Attribute::Letter => false,
    }
}

fn is_once(attribute: Attribute) -> bool
    ensures { result ≡ x.is_once attribute }
{
    match attribute {
        Attribute::Dummy | Attribute::Array | Attribute::Constant => true,
        Attribute::Typed | Attribute::Common | Attribute::Letter => true,
        _ => false,
    }
}

/// Whether a name that has been given this can't be given the attribute too.
pub fn conflicts(given: Given, attribute: Attribute) -> bool
    ensures { result ≡ x.conflicts given attribute }
{
    if has(given, attribute) {
        is_once(attribute)
    } else {
        is_excluded(given, attribute)
    }
}
