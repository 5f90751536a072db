ghost use Rattle.std.specs.Prelude.{◌≡◌, ◌<◌, ◌^◌, [], None, length, IfOk, All};
ghost use Rattle.spv_module.specs.Instruction.{instruction_rules};
ghost use Rattle.spv_words.specs.Words.{HasHeader};
ghost use Rattle.spv_module.specs.Broken.{version_rule, header_bound_rule, schema_rule};
ghost use Rattle.spv_module.specs.Code.{spelling as spelling_of};
ghost use Rattle.spv_module.specs.Decode.{Decodes, header_broken};

use crate::flat::Flat;
use crate::instructions::read_instructions;
use crate::layout::broken_layout;
use spv_base::{Fault, Header, MAGIC, NoMemory, Refusal, VERSION_1_6, Words, rule};
use std::alloc::Global;

/// The greatest bound of ids that the profile has.
const MOST_IDS: u32 = 4_194_303;

/// The first rule that a header breaks.
fn broken_header(header: &Header) -> Option<Refusal>
    ensures { result ≡ header_broken header.now }
{
    if header.version != VERSION_1_6 {
        return Some(Refusal {
            rule: rule::VERSION,
            at: 1,
        });
    }
    if header.bound == 0 || header.bound > MOST_IDS {
        return Some(Refusal {
            rule: rule::BOUND,
            at: 3,
        });
    }
    if header.schema != 0 {
        return Some(Refusal {
            rule: rule::SCHEMA,
            at: 4,
        });
    }
    None
}

/// The module that words spell: at least five and fewer than 2^32 words, with the magic number first.
///
/// Refuses by the first broken rule on the header and the instructions (101 to 109), and where there is none
/// by the first on the layout (201 to 205).
pub fn decode(alloc: Global, words: &[u32]) -> Result<Flat, Fault>
    requires header { HasHeader words.now }
    requires small { length words.now < 2 ^ 32 }
    ensures answer { Decodes words.now result }

    // What follows for a module that was read: each instruction breaks no rule below its bound.
    ensures each { IfOk result (λ code. All (λ i. instruction_rules code.header.bound i.words ≡ []) code.insts) }
{
    let header = Header {
        version: words[1],
        generator: words[2],
        bound: words[3],
        schema: words[4],
    };
    if let Some(refusal) = broken_header(&header) {
        return Err(Fault::Refused(refusal));
    }
    let (_, behind) = words.split_at(5);
    let insts = read_instructions(alloc, header.bound, 5, behind)?;
    if let Some(refusal) = broken_layout(&insts, words.len() as u32) {
        return Err(Fault::Refused(refusal));
    }
    Ok(Flat::new(alloc, header, insts)?)
}

/// The words of a module: its header and its instructions.
pub fn encode(alloc: Global, flat: &Flat) -> Result<Words, NoMemory>
    ensures { IfOk result (λ words. words ≡ spelling_of flat.now) }
{
    let header = flat.header();
    let insts = flat.insts();
    let mut words = Words::new(alloc);
    words.extend(&[
        MAGIC,
        header.version,
        header.generator,
        header.bound,
        header.schema,
    ])?;
    'instructions: for k in 0..insts.count() {
        words.extend(insts.at(k).words)?;
    }
    Ok(words)
}
