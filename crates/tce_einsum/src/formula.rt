//! The formula of an entry, printed without recursion: a tree may be as deep as a path is long.

ghost use Rattle.std.specs.Prelude.{◌≡◌, ◌<◌, ◌+◌, ◌∷◌, ◌++◌, [], List, nat_le, codes, length, map, IfOk, OnOk};
ghost use Rattle.tce_grammar.specs.Tokens as tokens;
ghost use Rattle.tce_grammar.specs.Grammar.{bracketed, listed, spelling, level};
ghost use Rattle.tce_grammar.specs.Printed.{with_token, with_tokens};
ghost use Rattle.tce_einsum.specs.Code as code;
ghost use Rattle.tce_einsum.specs.EntriesCode.{AreOrdered};
ghost use Rattle.tce_einsum.specs.Text as text;
ghost use Rattle.tce_einsum.specs.Produced as produced;
ghost use Rattle.tce_einsum.specs.ProducedCode.{task_tokens, pending, IsTask, AreTasks, weight, stack_weight, written_at};

use crate::entries::Node;
use crate::size::Size;
use crate::words::{
    push_bracketed_letters, push_letters, push_operand_name, push_symbol, push_word,
};
use std::alloc::{AllocError, Global};
use tce_grammar::Printer;

/// What is left to print.
#[derive(Clone, Copy)]
enum Task {
    /// The expression of a node.
    Whole(usize),
    /// The same on the right of a product: a product stands there in parentheses.
    RightOperand(usize),
    Symbol(u8),
}

/// The letter of a label by its number.
#[tactic(auto, using(crate::proofs::IndexLines::label_in, crate::proofs::IndexLines::label_read))]
fn label_at(sizes: &[Size], number: u8) -> u8
    ensures { result ≡ produced.label_at (code.sizes sizes.now) number }
{
    if (number as usize) < sizes.len() {
        let size = sizes[number as usize];
        size.label
    } else {
        0
    }
}

fn letters_of(alloc: Global, sizes: &[Size], numbers: &[u8]) -> Result<Vec<u8>, AllocError>
    ensures { IfOk result (λ v. v.items ≡ map (produced.label_at (code.sizes sizes.now)) numbers.now) }
{
    let mut found = Vec::new(alloc);
    let mut rest = numbers;
    while let [number, behind @ ..] = rest {
        found.push(label_at(sizes, *number))?;
        rest = behind;
    }
    Ok(found)
}

/// Prints an operand with these letters in brackets.
fn push_operand_with(
    alloc: Global,
    printer: &mut Printer,
    operand: u64,
    letters: &[u8],
) -> Result<(), AllocError>
    ensures { OnOk result (printer.new ≡ with_tokens printer.old (bracketed (produced.operand_name operand) (produced.letter_names letters.now))) }
{
    push_operand_name(alloc, printer, operand)?;
    push_bracketed_letters(printer, letters)
}

/// Prints an operand with its labels in brackets.
fn push_operand(
    alloc: Global,
    printer: &mut Printer,
    sizes: &[Size],
    operand: u64,
    labels: &[u8],
) -> Result<(), AllocError>
    ensures { OnOk result (printer.new ≡ with_tokens printer.old
        (bracketed (produced.operand_name operand) (produced.label_names (code.sizes sizes.now) labels.now))) }
{
    let letters = letters_of(alloc, sizes, labels)?;
    push_operand_with(alloc, printer, operand, letters.as_slice())
}

/// Prints the word of a sum over these letters, and opens its parenthesis.
fn push_sum_over(printer: &mut Printer, letters: &[u8]) -> Result<(), AllocError>
    ensures { OnOk result (printer.new ≡ with_tokens printer.old
        (tokens.word (codes "sum") ∷ tokens.symbol 123
        ∷ (listed (produced.letter_names letters.now) ++ tokens.symbol 125 ∷ tokens.symbol 40 ∷ []))) }
{
    push_word(printer, "sum")?;
    push_symbol(printer, b'{')?;
    push_letters(printer, letters)?;
    push_symbol(printer, b'}')?;
    push_symbol(printer, b'(')
}

/// Prints the word and the indexes of a sum, and opens its parenthesis.
fn push_summed(
    alloc: Global,
    printer: &mut Printer,
    sizes: &[Size],
    labels: &[u8],
) -> Result<(), AllocError>
    ensures { OnOk result (printer.new ≡ with_tokens printer.old
        (tokens.word (codes "sum") ∷ tokens.symbol 123
        ∷ (listed (produced.label_names (code.sizes sizes.now) labels.now) ++ tokens.symbol 125 ∷ tokens.symbol 40 ∷ []))) }
{
    let letters = letters_of(alloc, sizes, labels)?;
    push_sum_over(printer, letters.as_slice())
}

fn push_task(stack: &mut Vec<Task>, task: Task) -> Result<(), AllocError>
    ensures { OnOk result (stack.new.items ≡ stack.old.items ++ task ∷ []) }
{
    stack.push(task)?;
    Ok(())
}

fn push_two(stack: &mut Vec<Task>, last: Task, first: Task) -> Result<(), AllocError>
    ensures { OnOk result (stack.new.items ≡ (stack.old.items ++ last ∷ []) ++ first ∷ []) }
{
    push_task(stack, last)?;
    push_task(stack, first)
}

fn push_three(
    stack: &mut Vec<Task>,
    last: Task,
    middle: Task,
    first: Task,
) -> Result<(), AllocError>
    ensures { OnOk result (stack.new.items ≡ ((stack.old.items ++ last ∷ []) ++ middle ∷ []) ++ first ∷ []) }
{
    push_task(stack, last)?;
    push_two(stack, middle, first)
}

/// Prints what a sum begins with, and puts its operand and its end on the stack.
fn print_sum(
    alloc: Global,
    printer: &mut Printer,
    stack: &mut Vec<Task>,
    sizes: &[Size],
    labels: &[u8],
    operand: usize,
) -> Result<(), AllocError>
    ensures { OnOk result ((printer.new ≡ with_tokens printer.old
        (tokens.word (codes "sum") ∷ tokens.symbol 123
        ∷ (listed (produced.label_names (code.sizes sizes.now) labels.now) ++ tokens.symbol 125 ∷ tokens.symbol 40 ∷ [])))
        × (stack.new.items ≡ (stack.old.items ++ Task.Symbol 41 ∷ []) ++ Task.Whole operand ∷ [])) }
{
    push_summed(alloc, printer, sizes, labels)?;
    push_two(stack, Task::Symbol(b')'), Task::Whole(operand))
}

/// Prints what a node begins with, and puts what is left of it on the stack.
fn print_node(
    alloc: Global,
    printer: &mut Printer,
    stack: &mut Vec<Task>,
    sizes: &[Size],
    nodes: &[Node],
    place: usize,
) -> Result<(), AllocError>
    requires there { place < length nodes.now }
    requires ordered { AreOrdered nodes.now }
    requires tasks { AreTasks nodes.now stack.old.items }
    ensures printed { OnOk result (with_tokens printer.new (pending (code.sizes sizes.now) nodes.now stack.new.items)
        ≡ with_tokens printer.old (spelling (written_at (code.sizes sizes.now) nodes.now place) ++ pending (code.sizes sizes.now) nodes.now stack.old.items)) }
    ensures tasks { OnOk result (AreTasks nodes.now stack.new.items) }
    ensures less { OnOk result (stack_weight nodes.now stack.new.items < stack_weight nodes.now stack.old.items + weight nodes.now (Task.Whole place)) }
{
    match &nodes[place] {
        Node::Operand(operand, labels) => {
            push_operand(alloc, printer, sizes, *operand, labels.as_slice())
        }
        Node::Product(left, right) => push_three(
            stack,
            Task::RightOperand(*right),
            Task::Symbol(b'*'),
            Task::Whole(*left),
        ),
        Node::Sum(labels, operand) => {
            print_sum(alloc, printer, stack, sizes, labels.as_slice(), *operand)
        }
    }
}

/// Whether a node is a product.
fn is_product(nodes: &[Node], place: usize) -> bool
    requires { place < length nodes.now }
    ensures { (ss : List text.Size) → result ≡ nat_le (level (written_at ss nodes.now place)) 2 }
{
    matches!(&nodes[place], Node::Product(_, _))
}

/// Opens a parenthesis, and puts what it is for and its end on the stack.
fn print_grouped(
    printer: &mut Printer,
    stack: &mut Vec<Task>,
    place: usize,
) -> Result<(), AllocError>
    ensures { OnOk result ((printer.new ≡ with_token printer.old (tokens.symbol 40))
        × (stack.new.items ≡ (stack.old.items ++ Task.Symbol 41 ∷ []) ++ Task.Whole place ∷ [])) }
{
    push_symbol(printer, b'(')?;
    push_two(stack, Task::Symbol(b')'), Task::Whole(place))
}

/// Opens a parenthesis before a product on the right of another.
fn print_right_operand(
    printer: &mut Printer,
    stack: &mut Vec<Task>,
    nodes: &[Node],
    place: usize,
) -> Result<(), AllocError>
    requires there { place < length nodes.now }
    requires tasks { AreTasks nodes.now stack.old.items }
    ensures printed { OnOk result ((ss : List text.Size) → with_tokens printer.new (pending ss nodes.now stack.new.items)
        ≡ with_tokens printer.old (task_tokens ss nodes.now (Task.RightOperand place) ++ pending ss nodes.now stack.old.items)) }
    ensures tasks { OnOk result (AreTasks nodes.now stack.new.items) }
    ensures less { OnOk result (stack_weight nodes.now stack.new.items < stack_weight nodes.now stack.old.items + weight nodes.now (Task.RightOperand place)) }
{
    if !is_product(nodes, place) {
        return push_task(stack, Task::Whole(place));
    }
    print_grouped(printer, stack, place)
}

/// Does a task.
fn print_task(
    alloc: Global,
    printer: &mut Printer,
    stack: &mut Vec<Task>,
    sizes: &[Size],
    nodes: &[Node],
    task: Task,
) -> Result<(), AllocError>
    requires there { IsTask nodes.now task }
    requires ordered { AreOrdered nodes.now }
    requires tasks { AreTasks nodes.now stack.old.items }
    ensures printed { OnOk result (with_tokens printer.new (pending (code.sizes sizes.now) nodes.now stack.new.items)
        ≡ with_tokens printer.old (task_tokens (code.sizes sizes.now) nodes.now task ++ pending (code.sizes sizes.now) nodes.now stack.old.items)) }
    ensures tasks { OnOk result (AreTasks nodes.now stack.new.items) }
    ensures less { OnOk result (stack_weight nodes.now stack.new.items < stack_weight nodes.now stack.old.items + weight nodes.now task) }
{
    match task {
        Task::Whole(place) => print_node(alloc, printer, stack, sizes, nodes, place),
        Task::RightOperand(place) => print_right_operand(printer, stack, nodes, place),
        Task::Symbol(byte) => push_symbol(printer, byte),
    }
}

/// Does the tasks of a stack.
fn print_tasks(
    alloc: Global,
    printer: &mut Printer,
    stack: &mut Vec<Task>,
    sizes: &[Size],
    nodes: &[Node],
) -> Result<(), AllocError>
    requires ordered { AreOrdered nodes.now }
    requires tasks { AreTasks nodes.now stack.old.items }
    ensures { OnOk result (printer.new ≡ with_tokens printer.old (pending (code.sizes sizes.now) nodes.now stack.old.items)) }
{
    while let Some(task) = stack.pop() {
        print_task(alloc, printer, stack, sizes, nodes, task)?;
    }
    Ok(())
}

/// Prints the expression of a node, with no more parentheses than it needs.
pub(crate) fn push_expression(
    alloc: Global,
    printer: &mut Printer,
    sizes: &[Size],
    nodes: &[Node],
    place: usize,
) -> Result<(), AllocError>
    requires there { place < length nodes.now }
    requires ordered { AreOrdered nodes.now }
    ensures { OnOk result (printer.new ≡ with_tokens printer.old (spelling (written_at (code.sizes sizes.now) nodes.now place))) }
{
    let mut stack = Vec::new(alloc);
    push_task(&mut stack, Task::Whole(place))?;
    print_tasks(alloc, printer, &mut stack, sizes, nodes)
}
