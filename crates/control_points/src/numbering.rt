//! The first walk over a program: it numbers the points.
ghost use Rattle.std.specs.Prelude.{◌≡◌, ◌<◌, ◌≤◌, ◌^◌, ◌++◌, ◌∷◌, [], length, map, true, OnOk, IfOk};
ghost use Rattle.std.specs.List.{flat_map};
ghost use Rattle.control_points.specs.Called as called;
ghost use Rattle.control_points.specs.Calls.{expr_calls};
ghost use Rattle.control_points.specs.Extents as extents;
ghost use Rattle.control_points.specs.Marks as spec;
ghost use Rattle.control_points.specs.declared.point.PointKind.TheVariants as kinds;
ghost use Rattle.pas_program.specs.Scopes.{is_outermost};

use crate::calls::{CallSite, calls_in_access, calls_in_expr, calls_in_item, own_calls};
use crate::point::{Point, PointKind};
use pas_program::{Access, Arm, Body, Expr, Program, Routine, Statement, WriteItem, WriteValue};
use sqlite_items::Items;
use std::alloc::{AllocError, Global};

/// More points than a number can name are more than memory holds.
const MOST_POINTS: usize = u32::MAX as usize;

/// A point with the assertions and the label of the statement before which it lies.
#[derive(Drop)]
pub struct Mark {
    pub point: Point,
    pub asserts: Items<u32>,
    pub label: Option<u32>,
}

/// The points in order, and of each statement, in the order of the text, the number of its points.
#[derive(Drop)]
pub struct Numbering {
    pub marks: Items<Mark>,
    pub sizes: Items<u32>,
    /// The entry of each routine, and at the end the number of points.
    pub entries: Items<u32>,
    ghost few: { length marks < 2 ^ 32 },
    ghost sizes_few: { length sizes < 2 ^ 32 },
}

/// The place of a parameter of `write`.
fn place_of_written(value: &WriteValue) -> u32
    ensures { result ≡ spec.place_of_written value.now }
{
    match value {
        WriteValue::Value(e) => e.first,
        WriteValue::Text { at, .. } => *at,
    }
}

impl Numbering {
    /// The points of a program.
    pub fn of_program(alloc: Global, program: &Program) -> Result<Numbering, AllocError>
        ensures marks { IfOk result (λ n. n.marks ≡ spec.routines_marks 0 program.now.routines) }
        ensures sizes { IfOk result (λ n. n.sizes ≡ extents.routines_sizes program.now.routines) }
        ensures entries { IfOk result (λ n. n.entries ≡ spec.starts 0 0 program.now.routines) }
    {
        let mut numbering = Numbering {
            marks: Items::new(alloc),
            sizes: Items::new(alloc),
            entries: Items::new(alloc),
        };
        for (r, routine) in program.routines.as_slice().iter().enumerate() {
            numbering.start()?;
            numbering.routine(alloc, r as u32, routine)?;
        }
        numbering.start()?;
        Ok(numbering)
    }

    /// Notes that a routine begins with the next point.
    fn start(&mut self) -> Result<(), AllocError>
        ensures marks { OnOk result (self.new.marks ≡ self.old.marks) }
        ensures sizes { OnOk result (self.new.sizes ≡ self.old.sizes) }
        ensures entries { OnOk result (self.new.entries ≡ self.old.entries ++ length self.old.marks ∷ []) }
    {
        self.entries.push(self.marks.len() as u32)
    }

    fn routine(&mut self, alloc: Global, r: u32, routine: &Routine) -> Result<(), AllocError>
        requires { is_outermost routine.now.body ≡ true }
        ensures marks { OnOk result (self.new.marks ≡ self.old.marks ++ spec.routine_marks r routine.now) }
        ensures sizes { OnOk result (self.new.sizes ≡ self.old.sizes ++ extents.routine_sizes routine.now) }
        ensures entries { OnOk result (self.new.entries ≡ self.old.entries) }
    {
        match &routine.body.body {
            Body::Begin { body, end } => {
                self.point(alloc, r, PointKind::Entry, routine.body.at)?;
                self.sequence(alloc, r, body.as_slice())?;
                self.point(alloc, r, PointKind::Exit, *end)
            }
            _ => unreachable!(),
        }
    }

    /// A point without assertions.
    fn point(
        &mut self,
        alloc: Global,
        routine: u32,
        kind: PointKind,
        at: u32,
    ) -> Result<(), AllocError>
        ensures marks { OnOk result (self.new.marks ≡ self.old.marks ++ spec.mark routine kind at ∷ []) }
        ensures sizes { OnOk result (self.new.sizes ≡ self.old.sizes) }
        ensures entries { OnOk result (self.new.entries ≡ self.old.entries) }
    {
        let point = Point { routine, kind, at };
        self.add(Mark {
            point,
            asserts: Items::new(alloc),
            label: None,
        })
    }

    fn add(&mut self, mark: Mark) -> Result<(), AllocError>
        ensures marks { OnOk result (self.new.marks ≡ self.old.marks ++ mark ∷ []) }
        ensures sizes { OnOk result (self.new.sizes ≡ self.old.sizes) }
        ensures entries { OnOk result (self.new.entries ≡ self.old.entries) }
    {
        if self.marks.len() >= MOST_POINTS {
            return Err(AllocError);
        }
        self.marks.push(mark)
    }

    #[cycle(number)]
    fn sequence(
        &mut self,
        alloc: Global,
        routine: u32,
        body: &[Statement],
    ) -> Result<(), AllocError>
        ensures marks { OnOk result (self.new.marks ≡ self.old.marks ++ spec.statements_marks routine body.now) }
        ensures sizes { OnOk result (self.new.sizes ≡ self.old.sizes ++ (extents.statements_extent body.now).sizes) }
        ensures entries { OnOk result (self.new.entries ≡ self.old.entries) }
    {
        for s in body {
            self.statement(alloc, routine, s)?;
        }
        Ok(())
    }

    #[cycle(number)]
    fn arms(&mut self, alloc: Global, routine: u32, arms: &[Arm]) -> Result<(), AllocError>
        ensures marks { OnOk result (self.new.marks ≡ self.old.marks ++ spec.joined (map (spec.arm_marks routine) arms.now)) }
        ensures sizes { OnOk result (self.new.sizes ≡ self.old.sizes ++ (extents.arms_extent arms.now).sizes) }
        ensures entries { OnOk result (self.new.entries ≡ self.old.entries) }
    {
        for arm in arms {
            self.statement(alloc, routine, &arm.body)?;
        }
        Ok(())
    }

    #[cycle(number)]
    fn statement(&mut self, alloc: Global, routine: u32, s: &Statement) -> Result<(), AllocError>
        ensures marks { OnOk result (self.new.marks ≡ self.old.marks ++ spec.statement_marks routine s.now) }
        ensures sizes { OnOk result (self.new.sizes ≡ self.old.sizes ++ (extents.statement_extent s.now).sizes) }
        ensures entries { OnOk result (self.new.entries ≡ self.old.entries) }
    {
        let order = self.sizes.len();
        let first = self.marks.len();
        self.reserve()?;
        self.before(alloc, routine, s)?;
        self.body(alloc, routine, &s.body, s.at)?;
        let size = (self.marks.len() - first) as u32;
        self.sizes.set(order, size);
        Ok(())
    }

    /// Makes room for the size of a statement.
    fn reserve(&mut self) -> Result<(), AllocError>
        ensures marks { OnOk result (self.new.marks ≡ self.old.marks) }
        ensures sizes { OnOk result (self.new.sizes ≡ self.old.sizes ++ 0 ∷ []) }
        ensures entries { OnOk result (self.new.entries ≡ self.old.entries) }
    {
        if self.sizes.len() >= MOST_POINTS {
            return Err(AllocError);
        }
        self.sizes.push(0)
    }

    /// The point before a statement.
    fn before(&mut self, alloc: Global, routine: u32, s: &Statement) -> Result<(), AllocError>
        ensures marks { OnOk result (self.new.marks ≡ self.old.marks ++ spec.before_mark routine s.now.at s.now.asserts s.now.label ∷ []) }
        ensures sizes { OnOk result (self.new.sizes ≡ self.old.sizes) }
        ensures entries { OnOk result (self.new.entries ≡ self.old.entries) }
    {
        let kind = PointKind::Before;
        let asserts = Items::from_slice(alloc, s.asserts.as_slice())?;
        self.add(Mark {
            point: Point {
                routine,
                kind,
                at: s.at,
            },
            asserts,
            label: s.label,
        })
    }

    /// The points of a statement at `at` behind the one before it.
    #[cycle(number)]
    fn body(&mut self, alloc: Global, routine: u32, body: &Body, at: u32) -> Result<(), AllocError>
        ensures marks { OnOk result (self.new.marks ≡ self.old.marks ++ spec.body_marks routine body.now at) }
        ensures sizes { OnOk result (self.new.sizes ≡ self.old.sizes ++ (extents.body_extent body.now).sizes) }
        ensures entries { OnOk result (self.new.entries ≡ self.old.entries) }
    {
        self.own_points(alloc, routine, body)?;
        match body {
            Body::Read { to, .. } => self.reads(alloc, routine, to.as_slice()),
            Body::Write { items, .. } => self.writes(alloc, routine, items.as_slice()),
            Body::Begin { body, .. } => self.sequence(alloc, routine, body.as_slice()),
            Body::If { yes, no: None, .. } => self.statement(alloc, routine, yes.get()),
            Body::If {
                yes,
                no: Some(no),
                ..
            } => {
                self.statement(alloc, routine, yes.get())?;
                self.statement(alloc, routine, no.get())
            }
            Body::Case { arms, .. } => self.arms(alloc, routine, arms.as_slice()),
            Body::While { body, .. } => self.statement(alloc, routine, body.get()),
            Body::Repeat { body, at, cond } => {
                self.sequence(alloc, routine, body.as_slice())?;
                self.until(alloc, routine, *at, cond)
            }
            Body::For { body, .. } => {
                self.statement(alloc, routine, body.get())?;
                self.point(alloc, routine, PointKind::Step, at)
            }
            Body::Empty => Ok(()),
            Body::Assign { .. } => Ok(()),
            Body::Copy { .. } => Ok(()),
            Body::Call { .. } => Ok(()),
            Body::Goto { .. } => Ok(()),
        }
    }

    /// The points behind the calls of a statement's own action.
    fn own_points(&mut self, alloc: Global, routine: u32, body: &Body) -> Result<(), AllocError>
        ensures marks { OnOk result (self.new.marks ≡ self.old.marks ++ spec.call_marks routine (called.own_calls body.now)) }
        ensures sizes { OnOk result (self.new.sizes ≡ self.old.sizes) }
        ensures entries { OnOk result (self.new.entries ≡ self.old.entries) }
    {
        let sites = own_calls(alloc, body)?;
        self.calls(alloc, routine, sites.as_slice())
    }

    /// A point for each call, to which it returns.
    fn calls(
        &mut self,
        alloc: Global,
        routine: u32,
        sites: &[CallSite<'_>],
    ) -> Result<(), AllocError>
        ensures marks { OnOk result (self.new.marks ≡ self.old.marks ++ spec.call_marks routine (called.sites_of sites.now)) }
        ensures sizes { OnOk result (self.new.sizes ≡ self.old.sizes) }
        ensures entries { OnOk result (self.new.entries ≡ self.old.entries) }
    {
        for site in sites {
            self.point(alloc, routine, PointKind::AfterCall, site.at)?;
        }
        Ok(())
    }

    /// The points of the condition of a `repeat`, whose `until` is at `at`.
    fn until(&mut self, alloc: Global, routine: u32, at: u32, cond: &Expr) -> Result<(), AllocError>
        ensures marks { OnOk result (self.new.marks ≡ self.old.marks ++ spec.mark routine kinds.Until at ∷ spec.call_marks routine (expr_calls cond.now)) }
        ensures sizes { OnOk result (self.new.sizes ≡ self.old.sizes) }
        ensures entries { OnOk result (self.new.entries ≡ self.old.entries) }
    {
        let mut sites = Vec::new(alloc);
        calls_in_expr(cond, &mut sites)?;
        self.point(alloc, routine, PointKind::Until, at)?;
        self.calls(alloc, routine, sites.as_slice())
    }

    fn reads(&mut self, alloc: Global, routine: u32, to: &[Access]) -> Result<(), AllocError>
        ensures marks { OnOk result (self.new.marks ≡ self.old.marks ++ flat_map (spec.read_marks routine) to.now) }
        ensures sizes { OnOk result (self.new.sizes ≡ self.old.sizes) }
        ensures entries { OnOk result (self.new.entries ≡ self.old.entries) }
    {
        for access in to {
            self.read(alloc, routine, access)?;
        }
        Ok(())
    }

    fn read(&mut self, alloc: Global, routine: u32, access: &Access) -> Result<(), AllocError>
        ensures marks { OnOk result (self.new.marks ≡ self.old.marks ++ spec.read_marks routine access.now) }
        ensures sizes { OnOk result (self.new.sizes ≡ self.old.sizes) }
        ensures entries { OnOk result (self.new.entries ≡ self.old.entries) }
    {
        let mut sites = Vec::new(alloc);
        calls_in_access(access, &mut sites)?;
        self.calls(alloc, routine, sites.as_slice())?;
        self.point(alloc, routine, PointKind::AfterRead, access.at)
    }

    fn writes(&mut self, alloc: Global, routine: u32, items: &[WriteItem]) -> Result<(), AllocError>
        ensures marks { OnOk result (self.new.marks ≡ self.old.marks ++ flat_map (spec.write_marks routine) items.now) }
        ensures sizes { OnOk result (self.new.sizes ≡ self.old.sizes) }
        ensures entries { OnOk result (self.new.entries ≡ self.old.entries) }
    {
        for item in items {
            self.write(alloc, routine, item)?;
        }
        Ok(())
    }

    fn write(&mut self, alloc: Global, routine: u32, item: &WriteItem) -> Result<(), AllocError>
        ensures marks { OnOk result (self.new.marks ≡ self.old.marks ++ spec.write_marks routine item.now) }
        ensures sizes { OnOk result (self.new.sizes ≡ self.old.sizes) }
        ensures entries { OnOk result (self.new.entries ≡ self.old.entries) }
    {
        let mut sites = Vec::new(alloc);
        calls_in_item(item, &mut sites)?;
        self.calls(alloc, routine, sites.as_slice())?;
        self.point(
            alloc,
            routine,
            PointKind::AfterWrite,
            place_of_written(&item.value),
        )
    }
}
