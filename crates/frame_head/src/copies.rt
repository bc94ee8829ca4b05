//! Equal values of their own.
ghost use Rattle.std.specs.Prelude.{◌≡◌, IfOk};

use crate::marks::{Mark, Marks};
use crate::out::Out;
use std::alloc::{AllocError, Global};

impl Out {
    /// An equal way of writing frames. It allocates for a delimiter alone.
    pub fn copy(&self, alloc: Global) -> Result<Out, AllocError>
        ensures { IfOk result (λ o. o ≡ self.now) }
    {
        Ok(match self {
            Out::Length { field, little } => Out::Length {
                field: *field,
                little: *little,
            },
            Out::Line { crlf } => Out::Line { crlf: *crlf },
            Out::Delim { mark } => Out::Delim {
                mark: copy_mark(alloc, mark)?,
            },
            Out::Raw => Out::Raw,
        })
    }
}

fn copy_mark(alloc: Global, mark: &Mark) -> Result<Mark, AllocError>
    ensures { IfOk result (λ m. m ≡ mark.now) }
{
    Ok(Mark::new(Vec::from_slice(alloc, mark.bytes())?))
}

pub(crate) fn copy_marks(alloc: Global, marks: &Marks) -> Result<Marks, AllocError>
    ensures { IfOk result (λ m. m ≡ marks.now) }
{
    let mut list = Vec::with_capacity(alloc, marks.len())?;
    for i in 0..marks.len() {
        list.push(copy_mark(alloc, marks.mark(i))?)?;
    }
    Ok(Marks::new(list))
}
