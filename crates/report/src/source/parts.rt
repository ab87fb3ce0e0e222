//! Places, names and values as a report has them.
ghost use Rattle.std.specs.Prelude.{◌≡◌, ◌++◌, ◌<◌, OnOk, length};
ghost use Rattle.px_base.specs.Place.{place_at};
ghost use Rattle.report.specs.Report as spec;
ghost use Rattle.report.specs.Visible.{name_of};

use super::Source;
use crate::hosts::has_booleans;
use crate::page::Page;
use crate::spelling::bytes_of;
use interval::Val;
use px_base::Pos;
use std::alloc::AllocError;

impl Source<'_> {
    /// The line and the column of a place of the text, or of its end.
    fn place(&self, at: u32) -> Pos
        ensures { result ≡ place_at self.now.text.now at }
    {
        self.places[(at as usize).min(self.text.len())]
    }

    pub(crate) fn put_place(&self, page: &mut Page, at: u32) -> Result<(), AllocError>
        ensures { OnOk result (page.new.bytes.items ≡ page.old.bytes.items ++ spec.placed self.now.text.now self.now.flow.now at) }
    {
        page.put_place(self.place(at))
    }

    /// The name of a variable.
    pub(crate) fn put_name(&self, page: &mut Page, var: u32) -> Result<(), AllocError>
        requires { var < length self.now.flow.now.program.vars }
        ensures { OnOk result (page.new.bytes.items ≡ page.old.bytes.items ++ name_of self.now.text.now self.now.flow.now.program var) }
    {
        page.put_name(bytes_of(self.text, self.flow.program().var_def(var).name))
    }

    /// What a variable may hold.
    pub(crate) fn put_value(&self, page: &mut Page, var: u32, v: Val) -> Result<(), AllocError>
        requires { var < length self.now.flow.now.program.vars }
        ensures { OnOk result (page.new.bytes.items ≡ page.old.bytes.items ++ spec.value_text (spec.is_boolean self.now.text.now self.now.flow.now var) v) }
    {
        let program = self.flow.program();
        page.put_value(has_booleans(program, program.var_def(var).of_type), v)
    }
}
