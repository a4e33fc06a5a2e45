//! Visits of blocks that send their own row on as it is, as most do: a TRANSFER in parameter mode behind every block to which
//! its parameter may return. Many places have one row. So rows that say the same share a version, and what was made of one is
//! made of all, also of those to which another block sends a row of the same version next.

ghost use Rattle.std.specs.Prelude.{◌≡◌, ◌≢◌, ◌<◌, ◌+◌, [], ◌∷◌, All, IfOk, IfSome, Some, true, length, get_or, slice_get, ◌&&◌};
ghost use Rattle.gw_object.specs.declared.blocks.Block.TheVariants as blocks;
ghost use Rattle.gw_flow.specs.Known.{amounts_of};
ghost use Rattle.gw_rules.specs.Kinds.{block_at};
ghost use Rattle.gw_rules.specs.Rows.{kind_of, return_blocks};
ghost use Rattle.gw_rules.specs.declared.edges.Target.TheVariants as targets;
ghost use Rattle.gw_settle.specs.Drafts.{table_in, HasBlocks, AreNoted, MayVisit, IsVisit, IsSentAt, IsSentBehind, IsRowSent, MarksGoOn, NotesGoOn, AreShared, IsOfVersion, IsLikeKnown, IsLatestOf, MakesOf, IsMarkedAt};
ghost use Rattle.gw_settle.specs.Joins.{with_state};
ghost use Rattle.gw_settle.specs.Jumps.{row_in};
ghost use Rattle.gw_settle.specs.Keeps.{sets_return, IsIdleAt};
ghost use Rattle.gw_settle.specs.Known.{kind_known, params_known};
ghost use Rattle.gw_settle.specs.Rounds.{change_of, sent_at};
ghost use Rattle.gw_settle.specs.Versions as model;
ghost use Rattle.gw_settle.specs.Versions.{SaySameBut, AgreeBut, Sets, SendsBehind};

use crate::draft::Draft;
use crate::known::{Known, KnownKind, KnownParam};
use crate::table::{Change, followed_by, note, row_shared, send_at};
use gw_flow::{Amount, check_rules};
use gw_object::{Block, Fraction, Memory, Parts};
use std::alloc::Global;

/// What a row that is sent makes of the rows of one version.
#[derive(Clone, Copy)]
pub(crate) struct Like {
    /// Their version; 0 is none.
    pub version: u64,
    /// What changes: nothing, or they know less, and then they say what the row that is sent says.
    pub change: Change,
    /// Whether they differ from it in nothing but the parameter that holds the return.
    pub alone: bool,
}

/// What isn't known of any version.
const NO_LIKE: Like = Like {
    version: 0,
    change: Change::Same,
    alone: false,
};

/// What was found out last: what a row that was sent makes of the rows of one version.
#[derive(Clone, Copy)]
pub(crate) struct Latest {
    /// The version of the row that was sent.
    pub version: u64,
    /// The parameter that holds the return by which it was sent; 0 is none.
    pub parameter: u8,
    /// What it makes of them.
    pub like: Like,
}

/// That nothing was found out yet.
pub(crate) const NO_LATEST: Latest = Latest {
    version: 0,
    parameter: 0,
    like: NO_LIKE,
};

/// A row that is sent as it is.
#[derive(Clone, Copy)]
pub(crate) struct Sent<'r> {
    /// The row.
    pub row: &'r Known,
    /// The parameter that holds the return by which it is sent; 0 is none.
    pub parameter: u8,
    /// The version of rows that say the same as it; 0 is none.
    pub version: u64,
}

/// Whether a parameter holds the same.
fn is_same_kind(kind: &KnownKind, other: &KnownKind) -> bool
    ensures { result ≡ true → kind_known kind.now ≡ kind_known other.now }
{
    match kind {
        KnownKind::Num => match other {
            KnownKind::Num => true,
            KnownKind::Ret(_) => false,
        },
        KnownKind::Ret(blocks) => match other {
            KnownKind::Num => false,
            KnownKind::Ret(others) => blocks.as_slice() == others.as_slice(),
        },
    }
}

/// Whether the same parameters hold the same.
pub(crate) fn are_same_params(params: &[KnownParam], others: &[KnownParam]) -> bool
    ensures { result ≡ true → params_known params.now ≡ params_known others.now }
{
    if params.len() != others.len() {
        return false;
    }
    for i in 0..params.len() {
        if params[i].number != others[i].number || !is_same_kind(&params[i].kind, &others[i].kind) {
            return false;
        }
    }
    true
}

/// Whether the same parameters hold the same, but for one of this number.
fn are_same_params_but(parameter: u8, params: &[KnownParam], others: &[KnownParam]) -> bool
    ensures { result ≡ true → AgreeBut parameter params.now others.now }
{
    if params.len() != others.len() {
        return false;
    }
    for i in 0..params.len() {
        if params[i].number != others[i].number {
            return false;
        }
        if params[i].number != parameter && !is_same_kind(&params[i].kind, &others[i].kind) {
            return false;
        }
    }
    true
}

/// Whether the same units are held of the same entities.
fn are_same_units(units: &[Amount], others: &[Amount]) -> bool
    ensures { result ≡ true → amounts_of units.now ≡ amounts_of others.now }
{
    if units.len() != others.len() {
        return false;
    }
    for i in 0..units.len() {
        if units[i].entity != others[i].entity || units[i].number != others[i].number {
            return false;
        }
    }
    true
}

/// Whether two rows say the same.
fn is_same_row(row: &Known, other: &Known) -> bool
    ensures { result ≡ true → row.now ≡ other.now }
{
    are_same_params(row.params(), other.params())
        && row.facilities() == other.facilities()
        && are_same_units(row.units(), other.units())
}

/// Whether two rows say the same but for a parameter.
fn is_same_row_but(parameter: u8, row: &Known, other: &Known) -> bool
    ensures { result ≡ true → SaySameBut parameter row.now other.now }
{
    are_same_params_but(parameter, row.params(), other.params())
        && row.facilities() == other.facilities()
        && are_same_units(row.units(), other.units())
}

/// The version of the row at a place, from 0: its own, else a new one; 0 where none is left.
fn version_at(place: usize, versions: &[u64], newest: &mut u64) -> u64
    requires { place < length versions.now }
    ensures { model.IsGiven (get_or versions.now place 0) newest.old result newest.new }
{
    let own = versions[place];
    if own != 0 || *newest == u64::MAX {
        return own;
    }
    *newest += 1;
    *newest
}

/// What is known already of what a row that is sent makes of the rows of one version.
fn like_known(sent: Sent<'_>, latest: Latest) -> Like
    ensures { IsLikeKnown sent.entry latest result }
{
    if sent.version != 0 && sent.version == latest.version && sent.parameter == latest.parameter {
        latest.like
    } else {
        NO_LIKE
    }
}

/// What was found out of a row that was sent.
fn latest_of(sent: Sent<'_>, like: Like) -> Latest
    ensures { IsLatestOf sent.entry like result }
{
    if sent.version == 0 {
        return NO_LATEST;
    }
    Latest {
        version: sent.version,
        parameter: sent.parameter,
        like,
    }
}

/// Whether a block is a TRANSFER to a subroutine that keeps the return in this parameter: what it sends doesn't depend on
/// what the parameter held.
fn sets_return(block: &Block, parameter: u8) -> bool
    ensures { result ≡ sets_return (Some block.now) parameter }
{
    match block {
        Block::TransferToSubroutine(call) => call.parameter == parameter,
        _ => false,
    }
}

/// What a row that is sent made of the rows of one version, by one of them as it was before; of no version where it made
/// something else of it than itself.
fn like_of(
    sent: Sent<'_>,
    before: &Option<Known>,
    version: u64,
    change: Change,
    itself: bool,
) -> Like
    requires change { change ≡ change_of sent.row.now before.now }
    requires itself { itself ≡ true → with_state sent.row.now before.now ≡ sent.row.now }
    ensures version { result.version ≢ 0 → result.version ≡ version }
    ensures makes { result.version ≢ 0 → MakesOf sent.entry before.now result }
{
    let Some(old) = before else {
        return NO_LIKE;
    };
    match change {
        Change::Same => Like {
            version,
            change,
            alone: false,
        },
        Change::Less | Change::More => if itself {
            Like {
                version,
                change,
                alone: is_same_row_but(sent.parameter, old, sent.row),
            }
        } else {
            NO_LIKE
        },
    }
}

/// Gives the row at a place, from 0, if it has changed and says the same as the one that was sent, its version; answers
/// whether it does.
fn share_version(
    sent: Sent<'_>,
    change: Change,
    place: usize,
    blocks: &[Option<Known>],
    versions: &mut Vec<u64>,
) -> bool
    requires place { place < length versions.old.items }
    ensures same { result ≡ true → row_in blocks.now place ≡ Some sent.entry.row.now }
    ensures versions { Sets result place sent.entry.version versions.old.items versions.new.items }
{
    if change == Change::Same {
        return false;
    }
    let is_same = match blocks.get(place) {
        Some(Some(row)) => is_same_row(row, sent.row),
        Some(None) | None => false,
    };
    if is_same {
        versions[place] = sent.version;
    }
    is_same
}

/// Sends what a row says to the row at a place, from 0.
fn send_known(
    alloc: Global,
    row: &Known,
    place: usize,
    rows: &mut Vec<Option<Known>>,
) -> Result<Change, Memory>
    requires { place < length rows.old.items }
    ensures rows { IfOk result (λ _. rows.new.items ≡ sent_at row.now place rows.old.items) }
    ensures change { IfOk result (λ c. c ≡ change_of row.now (row_in rows.old.items place)) }
{
    let state = row.lent(alloc)?;
    let change = send_at(alloc, &state, place, rows);
    drop(state);
    change
}

/// Sends a row to the place, from 0, of a block, where this is its row, and it isn't known what becomes of that one's version.
fn send_over(
    alloc: Global,
    sent: Sent<'_>,
    place: usize,
    before: &Option<Known>,
    like: &mut Like,
    draft: &mut Draft,
) -> Result<Change, Memory>
    requires place { place < length draft.old.rows.blocks.items }
    requires mark { place < length draft.old.marks.items }
    requires before { before.now ≡ row_in draft.old.rows.blocks.items place }
    requires versions { AreShared sent like.old draft.old }
    ensures sent { IfOk result (IsSentAt sent.entry.row.now place draft.old draft.new) }
    ensures marks { IfOk result (IsMarkedAt place draft.old draft.new) }
    ensures versions { IfOk result (λ _. AreShared sent.entry like.new draft.new) }
{
    let version = draft.versions[place];
    let change = send_known(alloc, sent.row, place, &mut draft.rows.blocks)?;
    note(change, place, &mut draft.marks, &mut draft.versions);
    let itself = share_version(sent, change, place, &draft.rows.blocks, &mut draft.versions);
    *like = like_of(sent, before, version, change, itself);
    Ok(change)
}

/// Sends a row to the place, from 0, of a block whose row has a version of which it isn't known what becomes of it.
fn send_first(
    alloc: Global,
    sent: Sent<'_>,
    place: usize,
    like: &mut Like,
    draft: &mut Draft,
) -> Result<Change, Memory>
    requires place { place < length draft.old.rows.blocks.items }
    requires mark { place < length draft.old.marks.items }
    requires versions { AreShared sent like.old draft.old }
    ensures sent { IfOk result (IsSentAt sent.entry.row.now place draft.old draft.new) }
    ensures marks { IfOk result (IsMarkedAt place draft.old draft.new) }
    ensures versions { IfOk result (λ _. AreShared sent.entry like.new draft.new) }
{
    let before = row_shared(&draft.rows.blocks, place)?;
    let change = send_over(alloc, sent, place, &before, like, draft);
    drop(before);
    change
}

/// Whether the block at a place, from 0, sends the same as before, where its row has become like others: it differs from
/// what it was in nothing but a parameter that the block sets.
fn sends_the_same(parts: &Parts, parameter: u8, like: Like, place: usize) -> bool
    requires { place < length parts.now.blocks }
    ensures { result ≡ (like.alone && sets_return (slice_get parts.now.blocks place) parameter) }
{
    like.alone && sets_return(&parts.blocks.as_slice()[place], parameter)
}

/// Makes of the row at a place, from 0, what was made of another one of its version.
fn send_like(
    parts: &Parts,
    sent: Sent<'_>,
    place: usize,
    like: Like,
    draft: &mut Draft,
) -> Result<Change, Memory>
    requires place { place < length parts.now.blocks }
    requires blocks { HasBlocks parts.now draft.old }
    requires versions { AreShared sent like draft.old }
    requires same { get_or draft.old.versions.items place 0 ≡ like.version }
    requires known { like.version ≢ 0 }
    ensures { IfOk result (IsRowSent parts.now sent.entry place like draft.old draft.new) }
{
    if like.change == Change::Same {
        return Ok(Change::Same);
    }
    draft.rows.blocks[place] = Some(sent.row.share()?);
    draft.versions[place] = sent.version;
    if !sends_the_same(parts, sent.parameter, like, place) {
        draft.marks[place] = true;
    }
    Ok(like.change)
}

/// Sends a row to the place, from 0, of a block.
fn send_row(
    alloc: Global,
    parts: &Parts,
    sent: Sent<'_>,
    place: usize,
    like: &mut Like,
    draft: &mut Draft,
) -> Result<Change, Memory>
    requires place { place < length parts.now.blocks }
    requires blocks { HasBlocks parts.now draft.old }
    requires versions { AreShared sent like.old draft.old }
    ensures { IfOk result (IsRowSent parts.now sent.entry place like.new draft.old draft.new) }
{
    let known = *like;
    if known.version != 0 && draft.versions[place] == known.version {
        return send_like(parts, sent, place, known, draft);
    }
    let change = send_first(alloc, sent, place, like, draft)?;
    Ok(change)
}

/// Sends a row on to the blocks behind these, one after the other.
fn send_each(
    alloc: Global,
    parts: &Parts,
    sent: Sent<'_>,
    callers: &[u16],
    like: &mut Like,
    draft: &mut Draft,
) -> Result<Change, Memory>
    requires callers { All (λ c. c < length parts.now.blocks) callers.now }
    requires blocks { HasBlocks parts.now draft.old }
    requires versions { AreShared sent like.old draft.old }
    ensures sent { IfOk result (IsSentBehind sent.entry.row.now callers.now draft.old draft.new) }
    ensures marks { IfOk result (λ _. MarksGoOn parts.now draft.old draft.new) }
    ensures versions { IfOk result (λ _. AreShared sent.entry like.new draft.new) }
{
    let mut change = Change::Same;
    for caller in callers {
        let place = *caller as usize;
        let next = send_row(alloc, parts, sent, place, like, draft)?;
        change = followed_by(change, next);
    }
    Ok(change)
}

/// Sends a row on to the blocks behind these.
fn send_behind(
    alloc: Global,
    parts: &Parts,
    sent: Sent<'_>,
    callers: &[u16],
    draft: &mut Draft,
) -> Result<Change, Memory>
    requires callers { All (λ c. c < length parts.now.blocks) callers.now }
    requires blocks { HasBlocks parts.now draft.old }
    requires versions { IsOfVersion sent draft.old }
    ensures sent { IfOk result (IsSentBehind sent.entry.row.now callers.now draft.old draft.new) }
    ensures noted { IfOk result (λ _. NotesGoOn parts.now draft.old draft.new) }
{
    let mut like = like_known(sent, draft.latest);
    let change = send_each(alloc, parts, sent, callers, &mut like, draft)?;
    draft.latest = latest_of(sent, like);
    Ok(change)
}

/// One or two blocks behind which a row goes on.
#[derive(Clone, Copy)]
pub(crate) struct Behind {
    /// The number of the first.
    pub first: u16,
    /// That of the second, if there is one.
    pub second: Option<u16>,
}

/// Behind this block, and in front of that one, which has to have one in front of it.
fn behind_and_to(first: u16, target: u16) -> Option<Behind>
    ensures { IfSome result (λ w. model.numbers_behind w ≡ (first + 1) ∷ target ∷ []) }
{
    if target == 0 {
        return None;
    }
    Some(Behind {
        first,
        second: Some(target - 1),
    })
}

/// To this block, which has to have one in front of it.
fn behind_target(target: u16) -> Option<Behind>
    ensures { IfSome result (λ w. model.numbers_behind w ≡ target ∷ []) }
{
    if target == 0 {
        return None;
    }
    Some(Behind {
        first: target - 1,
        second: None,
    })
}

/// Behind which blocks a TRANSFER by fraction, which has this number, sends its row.
fn behind_fraction(number: u16, fraction: &Fraction) -> Option<Behind>
    ensures { IfSome result (λ w. model.numbers_behind w ≡ model.both_targets number fraction.now) }
{
    match fraction.otherwise {
        None => behind_and_to(number, fraction.target),
        Some(0) => None,
        Some(target) => behind_and_to(target - 1, fraction.target),
    }
}

/// Behind which blocks the block of this number sends its row as it is, whatever it says, if it is one of those that do.
pub(crate) fn behind_of(number: u16, block: &Block) -> Option<Behind>
    ensures { IfSome result (λ w. model.numbers_behind w ≡ model.goes_on_to number block.now) }
{
    match block {
        Block::Advance(_)
        | Block::Savevalue(_)
        | Block::Tabulate(_)
        | Block::Logic(_)
        | Block::Priority(_)
        | Block::Buffer => Some(Behind {
            first: number,
            second: None,
        }),
        Block::Transfer(target) => behind_target(*target),
        Block::TransferByFraction(fraction) => behind_fraction(number, fraction),
        _ => None,
    }
}

/// Whether the rules of the block of this number hold in a row.
fn rules_hold(
    alloc: Global,
    parts: &Parts,
    number: u16,
    block: &Block,
    row: &Known,
) -> Result<bool, Memory>
    ensures { IfOk result (λ hold. hold ≡ model.rules_hold parts.now block.now row.now) }
{
    let state = row.lent(alloc)?;
    Ok(!check_rules(parts, number, block, &state).is_err())
}

/// Visits the block of this number, which sends its row as it is: where its rules hold the row goes on behind each of these
/// blocks.
fn visit_passing(
    alloc: Global,
    parts: &Parts,
    number: u16,
    block: &Block,
    row: &Known,
    parameter: u8,
    callers: &[u16],
    draft: &mut Draft,
) -> Result<Change, Memory>
    requires there { block_at parts.now.blocks number ≡ Some block.now }
    requires may { MayVisit parts.now draft.old }
    requires row { table_in parts.now draft.old (targets.Block number) ≡ Some row.now }
    requires sends { SendsBehind parts.now number block.now row.now callers.now }
    ensures visited { IfOk result (IsVisit parts.now number draft.old draft.new) }
    ensures noted { IfOk result (λ _. NotesGoOn parts.now draft.old draft.new) }
{
    if !rules_hold(alloc, parts, number, block, row)? {
        return Ok(Change::Same);
    }
    let place = number as usize - 1;
    let version = version_at(place, &draft.versions, &mut draft.newest);
    let sent = Sent {
        row,
        parameter,
        version,
    };
    let change = send_behind(alloc, parts, sent, callers, draft)?;
    Ok(change)
}

/// Visits the block of this number in its row, which it sends as it is behind one or two blocks.
pub(crate) fn visit_behind(
    alloc: Global,
    parts: &Parts,
    number: u16,
    block: &Block,
    row: &Known,
    behind: Behind,
    draft: &mut Draft,
) -> Result<Change, Memory>
    requires there { block_at parts.now.blocks number ≡ Some block.now }
    requires may { MayVisit parts.now draft.old }
    requires row { table_in parts.now draft.old (targets.Block number) ≡ Some row.now }
    requires sends { SendsBehind parts.now number block.now row.now (model.blocks_behind behind) }
    ensures visited { IfOk result (IsVisit parts.now number draft.old draft.new) }
    ensures noted { IfOk result (λ _. NotesGoOn parts.now draft.old draft.new) }
{
    match behind.second {
        None => visit_passing(alloc, parts, number, block, row, 0, &[behind.first], draft),
        Some(second) => {
            let callers = [behind.first, second];
            visit_passing(alloc, parts, number, block, row, 0, &callers, draft)
        }
    }
}

/// Visits a TRANSFER in parameter mode, which has this number, in its row: where its rules hold the row goes on behind each
/// block to which the parameter may return.
pub(crate) fn visit_return(
    alloc: Global,
    parts: &Parts,
    number: u16,
    parameter: u8,
    row: &Known,
    draft: &mut Draft,
) -> Result<Change, Memory>
    requires there { block_at parts.now.blocks number ≡ Some (blocks.TransferByParameter parameter) }
    requires may { MayVisit parts.now draft.old }
    requires row { table_in parts.now draft.old (targets.Block number) ≡ Some row.now }
    ensures visited { IfOk result (IsVisit parts.now number draft.old draft.new) }
    ensures noted { IfOk result (λ _. NotesGoOn parts.now draft.old draft.new) }
{
    let block = Block::TransferByParameter(parameter);
    let callers = row.callers(parameter);
    let change = visit_passing(alloc, parts, number, &block, row, parameter, callers, draft)?;
    draft.returned = number as usize - 1;
    Ok(change)
}

/// The parameter by which the block at a place, from 0, returns, if it is a TRANSFER in parameter mode.
fn return_parameter(blocks: &[Block], place: usize) -> Option<u8>
    ensures { IfSome result (λ q. model.IsReturnAt blocks.now q place) }
{
    match blocks.get(place) {
        Some(Block::TransferByParameter(parameter)) => Some(*parameter),
        _ => None,
    }
}

/// Whether the block at a place, from 0, is a TRANSFER in parameter mode by this parameter.
fn is_return_by(blocks: &[Block], parameter: u8, place: usize) -> bool
    ensures { result ≡ true → model.IsReturnAt blocks.now parameter place }
{
    match blocks.get(place) {
        Some(Block::TransferByParameter(other)) => *other == parameter,
        _ => false,
    }
}

/// Whether the rows at two places, from 0, have one version.
fn are_of_one_version(versions: &[u64], place: usize, other: usize) -> bool
    requires place { place < length versions.now }
    requires other { other < length versions.now }
    ensures { result ≡ true → model.IsOneVersion versions.now place other }
{
    versions[place] != 0 && versions[place] == versions[other]
}

/// Whether the block at a place, from 0, is a TRANSFER in parameter mode whose row was sent already by the one that was visited
/// last: its parameter and its row are that one's, which isn't marked.
pub(crate) fn is_sent_already(parts: &Parts, place: usize, draft: &Draft) -> bool
    requires place { place < length parts.now.blocks }
    requires rows { length draft.now.rows.blocks.items ≡ length parts.now.blocks }
    requires noted { AreNoted parts.now draft.now }
    ensures { result ≡ true → IsIdleAt parts.now (table_in parts.now draft.now) (place + 1) }
{
    let blocks = parts.blocks.as_slice();
    let Some(parameter) = return_parameter(blocks, place) else {
        return false;
    };
    let other = draft.returned;
    if !is_return_by(blocks, parameter, other) {
        return false;
    }
    if draft.marks[other] {
        return false;
    }
    are_of_one_version(&draft.versions, place, other)
}
