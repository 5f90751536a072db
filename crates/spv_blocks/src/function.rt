ghost use Rattle.std.specs.Prelude.{◌≡◌, ◌<◌, ◌≤◌, ◌+◌, ◌^◌, drop, take, filter, map, not, length, slice_get, Some, ◌∷◌, ◌++◌, [], IfOk, OnOk};
ghost use Rattle.std.specs.List.{find};
ghost use Rattle.spv_module.specs.Code.{is_line as line_in};
ghost use Rattle.spv_module.specs.Instruction.{Instruction};
ghost use Rattle.spv_module.specs.View.{seen};
ghost use Rattle.spv_blocks.specs.Cutting.{closes as closes_in, before_close, ins as ins_in, end_of, place_of, block_of, blocks_of};
ghost use Rattle.spv_blocks.specs.Seen.{seen_ins, seen_end, seen_block, seen_code};

use crate::block::{Block, Construct, End, Ins};
use crate::insts::{Insts, starts};
use crate::parts::{closes, ending, ins, is_label, word};
use spv_module::layout::is_line;
use spv_module::{Flat, NoMemory, View};
use std::alloc::Global;
use std::marker::Model;

/// The blocks of a function, in order.
#[derive(Debug, Drop)]
pub struct Function {
    blocks: Vec<Block>,
}

impl Model for Function {
    ghost use Rattle.spv_blocks.specs.Blocks.{Code};
    ghost use Rattle.spv_blocks.specs.Seen.{seen_code};

    ghost Value = { Code };

    ghost view = { λ function. seen_code function.blocks.items };
}

/// The place of the first instruction from `from` on that ends a block; the number of instructions where there is none.
fn close_from(insts: &Insts, from: usize) -> usize
    requires { from ≤ length insts.now }
    ensures before { drop from (take result insts.now) ≡ before_close (drop from insts.now) }
    ensures found { slice_get insts.now result ≡ find closes_in (drop from insts.now) }
    ensures behind { from ≤ result }
    ensures within { result ≤ length insts.now }
{
    'instructions: for k in from..insts.count() {
        if closes(&insts.at(k)) {
            return k;
        }
    }
    insts.count()
}

/// Adds what an instruction is before a terminator, unless it is a line mark.
fn add_ins(alloc: Global, body: &mut Vec<Ins>, inst: &View) -> Result<(), NoMemory>
    ensures { OnOk result (map seen_ins body.new.items ≡ map seen_ins body.old.items ++ map ins_in (filter (λ i. not (line_in i)) (seen inst.now ∷ []))) }
{
    if !is_line(inst) {
        body.push(ins(alloc, inst)?)?;
    }
    Ok(())
}

/// What the instructions from `from` up to `to` are before a terminator.
fn body_in(alloc: Global, insts: &Insts, from: usize, to: usize) -> Result<Vec<Ins>, NoMemory>
    requires ordered { from ≤ to }
    requires within { to ≤ length insts.now }
    ensures { IfOk result (λ body. map seen_ins body.items ≡ map ins_in (filter (λ i. not (line_in i)) (drop from (take to insts.now)))) }
{
    let mut body = Vec::new(alloc);
    'instructions: for k in from..to {
        add_ins(alloc, &mut body, &insts.at(k))?;
    }
    Ok(body)
}

/// How a block ends that the instruction at a place ends, and that place in words.
fn end_at(alloc: Global, insts: &Insts, close: usize) -> Result<(End, u32), NoMemory>
    requires { close ≤ length insts.now }
    ensures { IfOk result (λ end. (seen_end end.0 ≡ end_of (slice_get insts.now close)) × (end.1 ≡ place_of (slice_get insts.now close))) }
{
    if close < insts.count() {
        let inst = insts.at(close);
        Ok((ending(alloc, &inst)?, inst.offset))
    } else {
        Ok((End::Open, 0))
    }
}

/// The block that the k-th instruction, an OpLabel, begins.
fn block_at(alloc: Global, insts: &Insts, k: usize) -> Result<Block, NoMemory>
    requires within { k < length insts.now }
    requires few { length insts.now < 2 ^ 32 }
    ensures { IfOk result (λ block. (label : Instruction) → slice_get insts.now k ≡ Some label → seen_block block ≡ block_of label (drop (k + 1) insts.now)) }
{
    let label = insts.at(k);
    let close = close_from(insts, k + 1);
    let body = body_in(alloc, insts, k + 1, close)?;
    let (end, end_at) = end_at(alloc, insts, close)?;
    Ok(Block {
        label: word(&label, 1),
        at: label.offset,
        body,
        end_at,
        end,
    })
}

/// Adds the block that the k-th instruction begins, if it is an OpLabel.
fn add_block(
    alloc: Global,
    blocks: &mut Vec<Block>,
    insts: &Insts,
    k: usize,
) -> Result<(), NoMemory>
    requires within { k < length insts.now }
    requires few { length insts.now < 2 ^ 32 }
    ensures { OnOk result (seen_code blocks.new.items ++ blocks_of (drop (k + 1) insts.now) ≡ seen_code blocks.old.items ++ blocks_of (drop k insts.now)) }
{
    if is_label(&insts.at(k)) {
        blocks.push(block_at(alloc, insts, k)?)?;
    }
    Ok(())
}

/// The blocks of a function of these instructions.
fn blocks_in(alloc: Global, insts: &Insts) -> Result<Vec<Block>, NoMemory>
    ensures { IfOk result (λ blocks. seen_code blocks.items ≡ blocks_of insts.now) }
{
    let mut blocks = Vec::new(alloc);
    'instructions: for k in 0..insts.count() {
        add_block(alloc, &mut blocks, insts, k)?;
    }
    Ok(blocks)
}

impl Function {
    ghost use Rattle.std.specs.Option.{option_map};
    ghost use Rattle.spv_blocks.specs.Blocks.{last_opens};
    ghost use Rattle.spv_blocks.specs.Cutting.{function_at, function_insts};
    ghost use Rattle.spv_blocks.specs.Seen.{seen_construct};

    /// The function whose OpFunction is the instruction numbered `first` of a module. It takes time in proportion to
    /// the function.
    pub fn at(alloc: Global, flat: &Flat, first: u32) -> Result<Function, NoMemory>
        ensures { IfOk result (λ function. function ≡ blocks_of (function_at first flat.now.insts)) }
    {
        let insts = Insts::from(flat, first);
        Ok(Function {
            blocks: blocks_in(alloc, &insts)?,
        })
    }

    /// The k-th function of a module, counted from 0, which has no block where there are fewer. It takes time in
    /// proportion to the module; for all functions, `starts` gives what `at` asks for.
    pub fn of(alloc: Global, flat: &Flat, k: u32) -> Result<Function, NoMemory>
        ensures { IfOk result (λ function. function ≡ blocks_of (function_insts k flat.now.insts)) }
    {
        let starts = starts(alloc, flat)?;
        match starts.get(k as usize) {
            Some(first) => Function::at(alloc, flat, *first),
            None => Ok(Function {
                blocks: Vec::new(alloc),
            }),
        }
    }

    /// The blocks, in order.
    pub fn blocks(&self) -> &[Block]
        ensures { seen_code result.now ≡ self.now }
    {
        &self.blocks
    }

    /// The number of blocks.
    pub fn count(&self) -> usize
        ensures { result ≡ length self.now }
    {
        self.blocks.len()
    }

    /// A number past all blocks, another for each label.
    pub(crate) fn past(&self, label: u32) -> usize
        ensures { result ≡ length self.now + label }
    {
        self.blocks.len() + label as usize
    }

    /// The i-th block, counted from 0.
    pub fn block(&self, i: usize) -> &Block
        requires { i < length self.now }
        ensures { slice_get self.now i ≡ Some (seen_block result.now) }
    {
        &self.blocks[i]
    }

    /// The label of the i-th block, counted from 0.
    pub fn label(&self, i: usize) -> u32
        requires { i < length self.now }
        ensures { Some result ≡ option_map (λ block. block.label) (slice_get self.now i) }
    {
        self.block(i).label
    }

    /// The place of the OpLabel of the i-th block, in words.
    pub fn label_at(&self, i: usize) -> u32
        requires { i < length self.now }
        ensures { Some result ≡ option_map (λ block. block.at) (slice_get self.now i) }
    {
        self.block(i).at
    }

    /// The place of what ends the i-th block, in words.
    pub fn end_at(&self, i: usize) -> u32
        requires { i < length self.now }
        ensures { Some result ≡ option_map (λ block. block.end_at) (slice_get self.now i) }
    {
        self.block(i).end_at
    }

    /// How the i-th block ends.
    pub fn end(&self, i: usize) -> &End
        requires { i < length self.now }
        ensures { Some (seen_end result.now) ≡ option_map (λ block. block.end) (slice_get self.now i) }
    {
        &self.block(i).end
    }

    /// What the i-th block opens before its terminator.
    pub fn construct(&self, i: usize) -> Option<Construct>
        requires { i < length self.now }
        ensures { Some (option_map seen_construct result) ≡ option_map (λ block. last_opens block.end block.body) (slice_get self.now i) }
    {
        self.block(i).construct()
    }
}
