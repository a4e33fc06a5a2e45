//! The names of the codes of refusals (docs/refusals.md).

ghost use Rattle.std.specs.Prelude.{◌≡◌, map};
ghost use Rattle.gw_answers.specs.Refusal as model;

use crate::codes as job_codes;
use gw_names::codes as names_codes;
use gw_object::codes as object_codes;
use gw_rules::{flow_codes, kinds_codes, plus_codes, weights_codes};
use gw_text::codes as text_codes;

/// All codes, ascending, with their names.
pub const NAMES: [(u16, &str); 63] = [
    (object_codes::TRUNCATED, "Truncated"),
    (object_codes::MAGIC, "Magic"),
    (object_codes::VERSION, "Version"),
    (object_codes::TAG, "Tag"),
    (object_codes::LIMIT, "Limit"),
    (object_codes::NOT_CANONICAL, "NotCanonical"),
    (object_codes::TRAILING, "Trailing"),
    (object_codes::MEMORY, "Memory"),
    (kinds_codes::WRONG_KIND, "WrongKind"),
    (kinds_codes::NO_ENTITY, "NoEntity"),
    (kinds_codes::NO_BLOCK, "NoBlock"),
    (kinds_codes::ENTERS_GENERATE, "EntersGenerate"),
    (kinds_codes::FALLS_OFF, "FallsOff"),
    (kinds_codes::BAD_CONSTANT, "BadConstant"),
    (flow_codes::UNSET_PARAM, "UnsetParam"),
    (flow_codes::ALREADY_OWNED, "AlreadyOwned"),
    (flow_codes::NOT_OWNER, "NotOwner"),
    (flow_codes::TOO_FEW_UNITS, "TooFewUnits"),
    (flow_codes::OWNS_AT_END, "OwnsAtEnd"),
    (flow_codes::EDGE_STATE, "EdgeState"),
    (flow_codes::CHAIN_STATE, "ChainState"),
    (flow_codes::PARAM_KIND, "ParamKind"),
    (flow_codes::OVER_CAPACITY, "OverCapacity"),
    (plus_codes::STACK_HEIGHT, "StackHeight"),
    (plus_codes::STACK_EMPTY, "StackEmpty"),
    (plus_codes::BAD_JUMP, "BadJump"),
    (plus_codes::CALL_ORDER, "CallOrder"),
    (plus_codes::TOO_COSTLY, "TooCostly"),
    (plus_codes::NEEDS_PARAM, "NeedsParam"),
    (weights_codes::WEIGHT_EDGE, "WeightEdge"),
    (weights_codes::CHAIN_WEIGHT, "ChainWeight"),
    (weights_codes::ARRIVAL_WEIGHT, "ArrivalWeight"),
    (weights_codes::SLOPE_PARAM, "SlopeParam"),
    (job_codes::SEED, "Seed"),
    (job_codes::COUNT, "Count"),
    (job_codes::BUDGET, "Budget"),
    (job_codes::JOB_MEMORY, "Memory"),
    (job_codes::WORKERS, "Workers"),
    (job_codes::SLICE, "Slice"),
    (job_codes::SPAWN, "Spawn"),
    (job_codes::USER_FULL, "UserFull"),
    (job_codes::SERVICE_FULL, "ServiceFull"),
    (job_codes::JOURNAL_FULL, "JournalFull"),
    (job_codes::SERVICE_MEMORY, "Memory"),
    (job_codes::NOT_YOURS, "NotYours"),
    (job_codes::NOT_ENDED, "NotEnded"),
    (job_codes::CANCELLED, "Cancelled"),
    (job_codes::STRANGER, "Stranger"),
    (job_codes::ALREADY_ENDED, "AlreadyEnded"),
    (text_codes::LENGTH, "Length"),
    (text_codes::WORD, "Word"),
    (text_codes::OPERAND, "Operand"),
    (text_codes::EXPRESSION, "Expression"),
    (text_codes::LABEL, "Label"),
    (text_codes::LEFT_OUT, "LeftOut"),
    (text_codes::LIMIT, "Limit"),
    (text_codes::ORDER, "Order"),
    (names_codes::NAME, "Name"),
    (names_codes::STORAGE, "Storage"),
    (names_codes::LIMIT, "Limit"),
    (job_codes::PARAMETER, "Parameter"),
    (job_codes::ROW, "Row"),
    (job_codes::EXPERIMENT, "Experiment"),
];

/// The name that these rows give a code.
fn name_in(rows: &[(u16, &'static str)], code: u16) -> &'static str
    ensures { result.now ≡ model.name_in (map (λ row. (row.0, row.1.now)) rows.now) code }
{
    match rows {
        [] => "Unknown",
        [row, ..] if row.0 == code => row.1,
        [_, others @ ..] => name_in(others, code),
    }
}

/// The name of a refusal's code.
pub(crate) fn name(code: u16) -> &'static str
    ensures { result.now ≡ model.code_name code }
{
    name_in(&NAMES, code)
}
