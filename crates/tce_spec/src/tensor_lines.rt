//! The lines of tensors, and references to tensors.

ghost use Rattle.std.specs.Prelude.{◌≡◌, ◌<◌, length, All, OnOk};
ghost use Rattle.tce_grammar.specs.Grammar.{bracketed};
ghost use Rattle.tce_grammar.specs.Printed.{with_tokens};
ghost use Rattle.tce_spec.specs.Declarations.{tensor_at};
ghost use Rattle.tce_spec.specs.Statements.{index_names};
ghost use Rattle.tce_spec.specs.Lines.{with_tensor, with_tensors};

use crate::declarations::Declarations;
use crate::words::{push_index_list, push_range_list, push_symbol, push_word};
use std::alloc::AllocError;
use tce_grammar::Printer;
use tce_tree::Leaf;

fn print_tensor(
    printer: &mut Printer,
    declarations: &Declarations,
    tensor: u8,
) -> Result<(), AllocError>
    requires { tensor < length declarations.now.tensors }
    ensures { OnOk result (printer.new ≡ with_tensor printer.old declarations.now tensor) }
{
    let declared = declarations.tensor(tensor);
    push_word(printer, "tensor")?;
    push_word(printer, declared.name.as_str())?;
    push_symbol(printer, b'[')?;
    push_range_list(printer, declarations.space(), declared.ranges.as_slice())?;
    push_symbol(printer, b']')?;
    printer.end_line()
}

/// Prints a line for each tensor, in order of declaration.
pub(crate) fn print_tensors(
    printer: &mut Printer,
    declarations: &Declarations,
) -> Result<(), AllocError>
    ensures { OnOk result (printer.new ≡ with_tensors printer.old declarations.now) }
{
    for tensor in 0..declarations.tensor_count() {
        print_tensor(printer, declarations, tensor)?;
    }
    Ok(())
}

/// Prints a tensor with its indexes in brackets.
pub(crate) fn push_reference(
    printer: &mut Printer,
    declarations: &Declarations,
    leaf: &Leaf,
) -> Result<(), AllocError>
    requires tensor { leaf.now.tensor < length declarations.now.tensors }
    requires indexes { All (λ i. i < length declarations.now.space.indexes) leaf.now.indexes.items }
    ensures { OnOk result (printer.new ≡ with_tokens printer.old
        (bracketed (tensor_at declarations.now leaf.now.tensor).name (index_names declarations.now.space leaf.now.indexes.items))) }
{
    push_word(printer, declarations.tensor(leaf.tensor).name.as_str())?;
    push_symbol(printer, b'[')?;
    push_index_list(printer, declarations.space(), leaf.indexes.as_slice())?;
    push_symbol(printer, b']')
}
