//! What each code of a refusal means for a planner, and how to mend it (docs/refusals.md, docs/guide.md).

ghost use Rattle.std.specs.Prelude.{◌≡◌, is_some, option_map};
ghost use Rattle.gw_explain.specs.Codes as codes;

/// What a refusal means, and what to do about it.
#[derive(Clone, Copy)]
pub struct Advice {
    /// What is wrong.
    pub wrong: &'static str,
    /// How to mend it.
    pub mend: &'static str,
}

/// For each code, ascending, what is wrong, and how to mend it.
pub const ADVICE: [(u16, &str, &str); 63] = [
    (
        1,
        "The bytes end before the object does; in a batch, a length or an object is cut off.",
        "Take the whole object, as gpssw asm wrote it, or assemble the text again.",
    ),
    (
        2,
        "These bytes are no object: they don't begin as one.",
        "Assemble the model text first: gpssw check and gpssw run read what gpssw asm writes.",
    ),
    (
        3,
        "The object has a version that this program doesn't read.",
        "Assemble the model text again, with this program.",
    ),
    (
        4,
        "A byte of the object is none that may stand there.",
        "The object is damaged: assemble the model text again.",
    ),
    (
        5,
        "A number or a length in the object is outside its limits, or the object is above 1 MiB.",
        "Assemble the model text again, or make the model smaller.",
    ),
    (
        6,
        "A value in the object isn't written in its one form, or a list doesn't ascend.",
        "The object is damaged: assemble the model text again.",
    ),
    (
        7,
        "Bytes stand after the end of the object.",
        "Take the object alone, as gpssw asm wrote it.",
    ),
    (
        8,
        "Memory ran out.",
        "Free some memory and try again, or make the model smaller.",
    ),
    (
        10,
        "Something is used as what it isn't: a FUNCTION of random numbers within an expression, say, or a FUNCTION as the argument of another.",
        "ASSIGN its value to a parameter first, and read the parameter.",
    ),
    (
        11,
        "An entity, a procedure or a return row is named that isn't there.",
        "The object is damaged: assemble the model text again.",
    ),
    (
        12,
        "A block is named that isn't there, as by N or W of a number.",
        "Give the block a label, and write N$LABEL or W$LABEL.",
    ),
    (
        13,
        "A transaction would go on from this block to a GENERATE, which only makes transactions.",
        "End the way before the GENERATE by a TERMINATE or a TRANSFER, and let labels stand before other blocks.",
    ),
    (
        14,
        "A transaction would go on from this block to the next, and it is the last.",
        "End the way by a TERMINATE, or by a TRANSFER to a label.",
    ),
    (
        15,
        "A number is outside its limits: units are 1 to 1048576, limits of arrivals and counts of ASSEMBLE and UNLINK at least 1, and a first arrival isn't before 0.",
        "Write a number within these limits.",
    ),
    (
        20,
        "A parameter is read here that isn't sure to be set: on some way to this block nothing sets it, or it is an operand of GENERATE, where there is no transaction yet.",
        "ASSIGN it on every way that leads here, or once before the ways part; before a subroutine, at every call of it.",
    ),
    (
        21,
        "SEIZE of a facility that the transaction owns already.",
        "Keep it and leave this SEIZE out, or RELEASE it before.",
    ),
    (
        22,
        "RELEASE of a facility that the transaction doesn't own, or that its ways here don't all own.",
        "SEIZE it on every way that leads here. What one transaction closes and another opens is a logic switch: LOGIC and GATE.",
    ),
    (
        23,
        "LEAVE or DEPART of more units than the transaction is sure to hold; a copy of SPLIT holds none.",
        "ENTER or QUEUE as many on every way that leads here. A stock that some fill and others empty is a savevalue, with TESTs for its bounds.",
    ),
    (
        24,
        "The transaction may end here, at TERMINATE or ASSEMBLE, while it owns a facility, which nobody could then release.",
        "RELEASE the facility before, and SEIZE it again behind an ASSEMBLE where it is needed.",
    ),
    (
        25,
        "Two ways join here, and a transaction owns other facilities on the one than on the other; or, in an object that wasn't assembled here, the state table doesn't fit.",
        "RELEASE before the ways join, so that the same is owned on both; servers that are alike are a STORAGE.",
    ),
    (
        26,
        "The members of a user chain don't all own the same facilities, or own others than is known where they go on.",
        "Have a user chain for each kind, with an UNLINK of its own, or RELEASE before LINK.",
    ),
    (
        27,
        "A parameter is read as a number that keeps where a subroutine goes back to, or the other way round.",
        "Keep a parameter of its own for each subroutine, for nothing else.",
    ),
    (
        28,
        "ENTER of more units than the storage has: nobody could ever enter.",
        "Raise the capacity at its STORAGE, or ask for less.",
    ),
    (
        30,
        "An expression keeps more than 64 values at once; or, in an object that wasn't assembled here, ways join with stacks of other heights, or none leads to an instruction.",
        "Compute parts of it before: in VARIABLEs, or in TEMPORARYs of a PROCEDURE.",
    ),
    (
        31,
        "An instruction takes more values than there are.",
        "The object is damaged: assemble the model text again.",
    ),
    (
        32,
        "An instruction leads out of its procedure: a JUMP or a JZ back, a BACK ahead, or the last goes on; or the procedure has none.",
        "The object is damaged: assemble the model text again.",
    ),
    (
        33,
        "This asks for its own value, maybe by way of others: VARIABLEs, BVARIABLEs or FUNCTIONs that go round in a circle.",
        "Break the circle: write one of them without the others, or keep a value in a savevalue.",
    ),
    (
        34,
        "One call may take more than 1,000,000,000 instructions: a WHILE may go round 10,000 times in a call, and so may one in each PROCEDURE that is called there, each time.",
        "Put both WHILEs into one PROCEDURE, or let one WHILE count for both.",
    ),
    (
        35,
        "A procedure of the object reads a parameter that it doesn't list as needed.",
        "The object is damaged: assemble the model text again.",
    ),
    (
        40,
        "From here a transaction may go round for ever while the clock stands. The round itself is often behind this place.",
        "Let each round pass an ADVANCE that takes at least 1 for sure, as ADVANCE 3,2. Or count the rounds by a LOOP over a parameter that an ASSIGN sets to a plain number, or within a PROCEDURE. A TEST or a GATE without a label waits by itself.",
    ),
    (
        41,
        "Members of a user chain may leave it and join it again for ever while the clock stands.",
        "Ask before UNLINK, or let an ADVANCE of at least 1 pass before LINK.",
    ),
    (
        42,
        "The interval between arrivals isn't sure to be 1 or more, and there is no limit: they might never end at one moment.",
        "Give GENERATE a limit, its fourth operand: one that is never met, as GENERATE 7,7,,1000000, changes nothing. An interval A,B of numbers with A - B at least 1 is another model.",
    ),
    (
        43,
        "The weight of this block grows with a parameter that isn't sure to be a number here.",
        "The object is damaged: assemble the model text again.",
    ),
    (
        50,
        "A seed is above 2147483646, or there are more than 16.",
        "Give at most 16 seeds, each from 1 to 2147483646; 0 stands for the model's own.",
    ),
    (
        51,
        "The termination count is above 1,099,511,627,776.",
        "Give a smaller count; 0 stands for the model's own.",
    ),
    (
        52,
        "The budget of steps is 0, or above 1,099,511,627,776.",
        "Give a budget within these limits.",
    ),
    (
        53,
        "Memory ran out when the run was to begin.",
        "Free some memory and try again, or make the model smaller.",
    ),
    (
        55,
        "There are no workers, or more than 16.",
        "Give a number of workers from 1 to 16.",
    ),
    (
        56,
        "A slice has no step, or more than 1,048,576.",
        "Give a slice from 1 to 1048576 steps.",
    ),
    (
        57,
        "No worker could be started.",
        "Let the machine have threads and memory free, and try again.",
    ),
    (
        60,
        "16 jobs of this user run already.",
        "Wait until one of them ends, or cancel one.",
    ),
    (
        61,
        "The service has had 1,024 jobs, which is all that it takes.",
        "Hand in the rest to another run of gpssw pool.",
    ),
    (
        62,
        "The journal of the service is full.",
        "Make longer slices, or hand in the rest to another run of gpssw pool.",
    ),
    (
        63,
        "Memory ran out in the service.",
        "Free some memory and try again, with fewer jobs.",
    ),
    (
        64,
        "The job is another user's, or there is none in that slot.",
        "Use the pass that was given for the job.",
    ),
    (
        65,
        "The job hasn't ended.",
        "Let workers run it to its end, and ask again. Where gpssw pool says it: the journal was full, since slices were too short (SLICE must be at least the steps of all jobs together, divided by 520,000); or workers ran short of memory (free some, or hand in fewer jobs); or no thread could be started (let the machine have some free).",
    ),
    (66, "The job was cancelled.", "Hand it in again."),
    (
        67,
        "The job in that slot is another one than the pass has.",
        "Use the pass that was given for the job.",
    ),
    (
        68,
        "The job has ended, and can't be cancelled.",
        "Collect its report.",
    ),
    (
        70,
        "The line has more than 1,000 bytes, or the text more than 1,048,576.",
        "Write shorter lines: the points of a FUNCTION may stand on several. Leave out comments.",
    ),
    (
        71,
        "No word of the language stands first on the line, or behind a label.",
        "Write the word of the statement out, in full; a comment begins with ;, or with * in the first column.",
    ),
    (
        72,
        "An operand is missing, or one too many, or of another kind or outside the limits that its place has; or a declaration has no name before it.",
        "See what the statement takes: docs/model-text.md has them all. A comment behind the operands begins with ;.",
    ),
    (
        73,
        "This can't be read as an expression.",
        "Close each parenthesis, and write # for times and \\ for the whole part of a quotient.",
    ),
    (
        74,
        "This name stands before another statement already.",
        "Give one of the two another name: labels of blocks and names of declarations must differ.",
    ),
    (
        75,
        "GPSS World has this, and the language here hasn't.",
        "Say it in another way: docs/guide.md, From GPSS World to here, has all forms that are left out, and what stands in the place of each.",
    ),
    (
        76,
        "Too much: more than 4,096 blocks, a name of more than 32 bytes, a number past 9223372036854775807, or parentheses more than 1,000 deep.",
        "Shorten the name, choose a larger unit, or write the model with fewer blocks.",
    ),
    (
        77,
        "A block stands behind START, or there is a second START.",
        "Let one START be the last line.",
    ),
    (
        80,
        "A name stands here that isn't declared: a label, an EQU, a TABLE, FUNCTION, VARIABLE or BVARIABLE; or a PROCEDURE that isn't above, or that takes another number of arguments; or an attribute of GPSS World that this language hasn't.",
        "Declare it, or spell it as where it is declared; a PROCEDURE and an EQU stand above what uses them.",
    ),
    (
        81,
        "This storage has no STORAGE statement.",
        "Declare it, as NAME STORAGE 3.",
    ),
    (
        82,
        "Too much: more than 1,024 entities, 64 parameters or 256 procedures, a PROCEDURE of more than 4,096 instructions, 32 WHILEs or 32 arguments and TEMPORARYs, or an object above 1 MiB.",
        "Split the PROCEDURE, or write the model with fewer names.",
    ),
    (
        83,
        "A number can't be put into the model: no line, or more than one, gives that name a plain number by NAME STORAGE, NAME EQU or INITIAL X$NAME; or the word is no NAME=1,2,3; or there are more than two names, or more than 64 points.",
        "Write NAME=1,2,3 for a name whose number stands on one line of the model, as NURSES STORAGE 2.",
    ),
    (
        84,
        "A line of rows isn't one of this study: it is cut off, is no row, or is of another model, count, window or point; or a run came with other numbers, or is missing.",
        "Put together rows that planner runs or planner shard wrote for one model, each file whole. Make again the runs that are missing.",
    ),
    (
        85,
        "A line that begins with *! asks for no experiment, or none says how many runs there are.",
        "Write *! runs 200, and perhaps *! vary NURSES 1 2 3, *! count 100 and *! from 50, each on a line of its own.",
    ),
];

/// What the row of a code says, if these rows have one.
fn advice_in(rows: &[(u16, &'static str, &'static str)], code: u16) -> Option<Advice>
    ensures { option_map (λ a. (a.wrong.now, a.mend.now)) result ≡ codes.words_of_code rows.now code }
{
    match rows {
        [] => None,
        [row, ..] if row.0 == code => Some(Advice {
            wrong: row.1,
            mend: row.2,
        }),
        [_, others @ ..] => advice_in(others, code),
    }
}

/// The advice on a code of a refusal: each code that there is has one.
#[tactic(auto, unfolding(crate::specs::Codes::advice_words))]
pub fn advice_on(code: u16) -> Option<Advice>
    ensures codes { is_some result ≡ codes.is_code code }
    ensures words { option_map (λ a. (a.wrong.now, a.mend.now)) result ≡ codes.advice_words code }
{
    advice_in(&ADVICE, code)
}
