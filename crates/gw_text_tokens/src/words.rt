//! The words of statements, and the names that GPSS World has and this text leaves out.

ghost use Rattle.std.specs.Prelude.{◌≡◌, map};
ghost use Rattle.gw_text_tokens.specs.Heads.{word_spelled, word_in};
ghost use Rattle.gw_text_tokens.specs.Words.{is_block, names_entity, word_if_known};

use crate::characters::is_spelled;

/// The word of a statement: a block's, or a declaration's (GPSS World Reference Manual, chapters 6 and 7).
#[derive(Clone, Copy, PartialEq, Eq)]
pub enum Word {
    Generate,
    Terminate,
    Advance,
    Seize,
    Release,
    Enter,
    Leave,
    Queue,
    Depart,
    Assign,
    Test,
    Gate,
    Transfer,
    Loop,
    Split,
    Assemble,
    Link,
    Unlink,
    Logic,
    Savevalue,
    Mark,
    Priority,
    Buffer,
    Plus,
    Tabulate,
    Storage,
    Variable,
    BVariable,
    Equ,
    Function,
    Table,
    Initial,
    Rmult,
    Start,
    Simulate,
    Procedure,
}

/// What a first word may be besides a label: a statement's word, or one that is left out.
#[derive(Clone, Copy)]
pub enum Known {
    /// A statement begins here.
    Word(Word),
    /// A statement of GPSS World that is left out.
    LeftOut,
    /// Neither.
    Other,
}

impl Word {
    /// Whether it is a block.
    #[tactic(auto, unfolding(crate::specs::Words::is_block))]
    pub fn is_block(self) -> bool
        ensures { result ≡ is_block self }
    {
        match self {
            Word::Storage
            | Word::Variable
            | Word::BVariable
            | Word::Equ
            | Word::Function
            | Word::Table
            | Word::Initial
            | Word::Rmult
            | Word::Start
            | Word::Simulate
            | Word::Procedure => false,
            _ => true,
        }
    }

    /// Whether what it declares has the label for its name: STORAGE, EQU and the like.
    pub fn is_named(self) -> bool {
        matches!(
            self,
            Word::Storage
                | Word::Variable
                | Word::BVariable
                | Word::Equ
                | Word::Function
                | Word::Table
        )
    }

    /// Whether it declares an entity, whose name may be a whole number.
    pub fn names_entity(self) -> bool
        ensures { result ≡ names_entity self }
    {
        matches!(
            self,
            Word::Storage | Word::Variable | Word::BVariable | Word::Function | Word::Table
        )
    }
}

const WORDS: [(&[u8], Word); 36] = [
    (b"GENERATE", Word::Generate),
    (b"TERMINATE", Word::Terminate),
    (b"ADVANCE", Word::Advance),
    (b"SEIZE", Word::Seize),
    (b"RELEASE", Word::Release),
    (b"ENTER", Word::Enter),
    (b"LEAVE", Word::Leave),
    (b"QUEUE", Word::Queue),
    (b"DEPART", Word::Depart),
    (b"ASSIGN", Word::Assign),
    (b"TEST", Word::Test),
    (b"GATE", Word::Gate),
    (b"TRANSFER", Word::Transfer),
    (b"LOOP", Word::Loop),
    (b"SPLIT", Word::Split),
    (b"ASSEMBLE", Word::Assemble),
    (b"LINK", Word::Link),
    (b"UNLINK", Word::Unlink),
    (b"LOGIC", Word::Logic),
    (b"SAVEVALUE", Word::Savevalue),
    (b"MARK", Word::Mark),
    (b"PRIORITY", Word::Priority),
    (b"BUFFER", Word::Buffer),
    (b"PLUS", Word::Plus),
    (b"TABULATE", Word::Tabulate),
    (b"STORAGE", Word::Storage),
    (b"VARIABLE", Word::Variable),
    (b"BVARIABLE", Word::BVariable),
    (b"EQU", Word::Equ),
    (b"FUNCTION", Word::Function),
    (b"TABLE", Word::Table),
    (b"INITIAL", Word::Initial),
    (b"RMULT", Word::Rmult),
    (b"START", Word::Start),
    (b"SIMULATE", Word::Simulate),
    (b"PROCEDURE", Word::Procedure),
];

const LEFT_OUT: [&[u8]; 36] = [
    b"PREEMPT",
    b"RETURN",
    b"FAVAIL",
    b"FUNAVAIL",
    b"SAVAIL",
    b"SUNAVAIL",
    b"GATHER",
    b"MATCH",
    b"SELECT",
    b"COUNT",
    b"EXAMINE",
    b"JOIN",
    b"REMOVE",
    b"ALTER",
    b"SCAN",
    b"ADOPT",
    b"DISPLACE",
    b"TRACE",
    b"UNTRACE",
    b"OPEN",
    b"CLOSE",
    b"READ",
    b"WRITE",
    b"SEEK",
    b"MATRIX",
    b"MSAVEVALUE",
    b"QTABLE",
    b"FVARIABLE",
    b"INDEX",
    b"EXECUTE",
    b"INTEGRATION",
    b"EXPERIMENT",
    b"CLEAR",
    b"RESET",
    b"CONDUCT",
    b"SHOW",
];

const LIBRARY: [&[u8]; 60] = [
    b"ANOVA",
    b"EXIT",
    b"QUERYXNEXIST",
    b"QUERYXNPARAMETER",
    b"QUERYXNASSEMBLYSET",
    b"QUERYXNPRIORITY",
    b"QUERYXNM1",
    b"ABS",
    b"ATN",
    b"COS",
    b"EXP",
    b"INT",
    b"LOG",
    b"SIN",
    b"SQR",
    b"TAN",
    b"ALIGN",
    b"CATENATE",
    b"COPIES",
    b"DATATYPE",
    b"FIND",
    b"LEFT",
    b"LENGTH",
    b"LOWERCASE",
    b"PLACE",
    b"POLYCATENATE",
    b"RIGHT",
    b"STRINGCOMPARE",
    b"SUBSTRING",
    b"TRIM",
    b"UPPERCASE",
    b"VALUE",
    b"WORD",
    b"BETA",
    b"BINOMIAL",
    b"DISCUNIFORM",
    b"DUNIFORM",
    b"EXPONENTIAL",
    b"EXTVALA",
    b"EXTVALB",
    b"GAMMA",
    b"GEOMETRIC",
    b"INVGAUSS",
    b"INVWEIBULL",
    b"LAPLACE",
    b"LOGISTIC",
    b"LOGLAPLACE",
    b"LOGNORMAL",
    b"NEGBINOM",
    b"NORMAL",
    b"PARETO",
    b"PEARSON5",
    b"PEARSON6",
    b"POISSON",
    b"TRIANGULAR",
    b"UNIFORM",
    b"WEIBULL",
    b"CALL",
    b"CALL_INTEGER",
    b"CALL_REAL",
];

/// The statement's word of this spelling, in upper or lower case.
fn word_of(spelling: &[u8]) -> Option<Word>
    ensures { result ≡ word_spelled spelling.now }
{
    word_among(&WORDS, spelling)
}

/// The word of the first of these rows that has this spelling, in upper or lower case.
fn word_among(rows: &[(&[u8], Word)], spelling: &[u8]) -> Option<Word>
    ensures { result ≡ word_in (map (λ row. (row.0.now, row.1)) rows.now) spelling.now }
{
    match rows {
        [] => None,
        [row, ..] if is_spelled(spelling, row.0) => Some(row.1),
        [_, others @ ..] => word_among(others, spelling),
    }
}

/// What a word at the head of a line is.
pub fn known_word(spelling: &[u8]) -> Known
    ensures { word_if_known result ≡ word_spelled spelling.now }
{
    match word_of(spelling) {
        Some(word) => Known::Word(word),
        None if is_among(spelling, &LEFT_OUT) => Known::LeftOut,
        None => Known::Other,
    }
}

/// Whether it is a function of GPSS World's PLUS library.
pub fn is_library(spelling: &[u8]) -> bool {
    is_among(spelling, &LIBRARY)
}

fn is_among(spelling: &[u8], names: &[&[u8]]) -> bool {
    for name in names {
        if is_spelled(spelling, name) {
            return true;
        }
    }
    false
}
