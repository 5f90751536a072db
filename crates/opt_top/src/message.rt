ghost use Rattle.std.specs.Prelude.{◌≡◌, ◌+◌, ◌++◌, ◌≤◌, OnOk, OnErr, codes, decimal, length};
ghost use Rattle.opt_top.specs.Moves.{Tellings, FaultsTelling};
ghost use Rattle.opt_top.specs.Status.{early_text as text_of_early, late_text as text_of_late, rule_text as text_of_rule};
ghost use Rattle.opt_top.specs.Status.{message_of, number_line, refusal_line};
ghost use Rattle.opt_top.specs.Ends.{Told};

use crate::status::Status;
use crate::writing::tell_all;
use arrayvec::ArrayString;
use itoa::Buffer;
use opt_outside::{Failed, Outside};
use spv_availability::rule as availability;
use spv_base::{Refusal, rule};
use spv_calls::rule as calls;
use spv_entries::rule as entries;
use spv_exits::rule as exits;
use spv_faults::rule as control;
use spv_signatures::rule as signatures;
use spv_usage::rule as usage;
use spv_values::rule as values;

/// The most bytes of a message.
const MOST_BYTES: usize = 64;

/// The rules from here on are on control flow, on the instructions of functions and on the whole module.
const LATE: u16 = 400;

/// A branch leads from one case of a switch into another.
const CASE_FALL: u16 = 404;

/// The name of a rule on bytes, instructions, layout or declarations, behind its three digits.
fn early_text(rule: u16) -> &'static str
    ensures text { result.now ≡ text_of_early rule }
    ensures short { length result.now ≤ 23 }
{
    match rule {
        rule::SHORT_INPUT => "001 ShortInput",
        rule::ODD_LENGTH => "002 OddLength",
        rule::NOT_SPIRV => "003 NotSpirv",
        rule::VERSION => "101 Version",
        rule::SCHEMA => "102 Schema",
        rule::BOUND => "103 Bound",
        rule::ZERO_COUNT => "104 ZeroCount",
        rule::PAST_END => "105 PastEnd",
        rule::UNKNOWN_OPCODE => "106 UnknownOpcode",
        rule::OPERAND_COUNT => "107 OperandCount",
        rule::BAD_STRING => "108 BadString",
        rule::BAD_ENUMERANT => "109 BadEnumerant",
        rule::LAYOUT_ORDER => "201 LayoutOrder",
        rule::MISSING_CAPABILITY => "202 MissingCapability",
        rule::MISSING_MEMORY_MODEL => "203 MissingMemoryModel",
        rule::MISSING_ENTRY_POINT => "204 MissingEntryPoint",
        rule::FUNCTION_SHAPE => "205 FunctionShape",
        rule::ID_TWICE => "301 IdTwice",
        rule::ID_UNKNOWN => "302 IdUnknown",
        rule::BAD_TYPE => "303 BadType",
        rule::BAD_CONSTANT => "304 BadConstant",
        rule::BAD_SPEC_OP => "305 BadSpecOp",
        rule::BAD_DECORATION => "306 BadDecoration",
        rule::BAD_LAYOUT => "307 BadLayout",
        rule::BAD_GLOBAL => "308 BadGlobal",
        rule::TYPE_DEPTH => "309 TypeDepth",
        _ => "",
    }
}

/// The name of a rule on control flow, on the instructions of functions or on the whole module, behind its three digits.
fn late_text(rule: u16) -> &'static str
    ensures text { result.now ≡ text_of_late rule }
    ensures short { length result.now ≤ 23 }
{
    match rule {
        control::NO_TERMINATOR => "401 NoTerminator",
        control::BAD_TARGET => "402 BadTarget",
        control::BAD_MERGE => "403 BadMerge",
        CASE_FALL => "404 CaseFall",
        control::BAD_CONTINUE => "405 BadContinue",
        control::BAD_PHI => "406 BadPhi",
        control::BARE_BRANCH => "407 BareBranch",
        control::SAME_TARGETS => "408 SameLabels",
        control::HEADER_SPLIT => "410 HeaderSplit",
        values::OPERAND_TYPE => "501 OperandType",
        values::RESULT_TYPE => "502 ResultType",
        availability::NOT_AVAILABLE => "503 NotAvailable",
        usage::STORAGE_USE => "504 StorageUse",
        usage::SCOPE_OR_SEMANTICS => "505 ScopeOrSemantics",
        signatures::CALL_SHAPE => "506 CallShape",
        signatures::RETURN_TYPE => "507 ReturnType",
        calls::CALL_CYCLE => "601 CallCycle",
        calls::INTERFACE => "602 Interface",
        entries::BINDING => "603 Binding",
        entries::ENTRY_NAME => "604 EntryName",
        entries::LOCAL_SIZE => "605 LocalSize",
        entries::ENTRY_FUNCTION => "606 EntryFunction",
        exits::MANY_EXITS => "607 ManyExits",
        _ => "",
    }
}

/// A rule's three digits and its name.
fn rule_text(rule: u16) -> &'static str
    ensures text { result.now ≡ text_of_rule rule }
    ensures short { length result.now ≤ 23 }
{
    if rule < LATE {
        early_text(rule)
    } else {
        late_text(rule)
    }
}

/// A text of at most 40 bytes, a number and a line's end.
fn numbered(front: &str, number: u32) -> ArrayString<MOST_BYTES>
    requires { length front.now ≤ 40 }
    ensures { result.bytes ≡ number_line front.now number }
{
    let mut digits = Buffer::new();
    let mut line = ArrayString::new();
    line.push_str(front);
    line.push_str(digits.format(number));
    line.push_str("\n");
    line
}

/// The line that tells a refusal.
fn refusal_text(refusal: &Refusal) -> ArrayString<MOST_BYTES>
    ensures { result.bytes ≡ refusal_line refusal.now }
{
    let mut front = ArrayString::<MOST_BYTES>::new();
    front.push_str("error: ");
    front.push_str(rule_text(refusal.rule));
    front.push_str(" at word ");
    numbered(front.as_str(), refusal.at)
}

/// Tells how a run ended.
fn try_tell<O: Outside>(status: &Status, out: &mut O) -> Result<(), Failed>
    ensures ok { OnOk result (Tellings (message_of status.now) (O.seen out.old) (O.seen out.new)) }
    ensures err { OnErr result (FaultsTelling (message_of status.now) (O.seen out.old) (O.seen out.new)) }
{
    match status {
        Status::Done => tell_all(out, b""),
        Status::Refused(refusal) => tell_all(out, refusal_text(refusal).as_str().as_bytes()),
        Status::Usage(_) => tell_all(out, b"error: usage: NotYet\n"),
        Status::ReadFault => tell_all(out, b"error: read fault\n"),
        Status::WriteFault => tell_all(out, b"error: write fault\n"),
        Status::Limit(number) => tell_all(
            out,
            numbered("error: limit ", *number).as_str().as_bytes(),
        ),
        Status::NoMemory => tell_all(out, b"error: out of memory\n"),
    }
}

/// Tells how a run ended. A fault ends the telling, and nothing else comes of it.
pub fn tell_message<O: Outside>(status: &Status, out: &mut O)
    ensures others { (O.seen out.new) ≡ record (O.seen out.old) { told = (O.seen out.new).told; tell_faults = (O.seen out.new).tell_faults } }
    ensures told { Told (message_of status.now) (O.seen out.old) (O.seen out.new) }
{
    let _ = try_tell(status, out);
}
