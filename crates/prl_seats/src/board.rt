//! The board: the table that threads share, with what its run is about, and each kind of step.

ghost use Rattle.std.specs.Prelude.{◌≡◌, ◌+◌, ◌/◌, ◌^◌, ◌<◌, ◌≤◌, ℕ, [], false, length, replicate, slice_index, IfOk, Some};
ghost use mathlib.Core.Option.{some};
ghost use lib.ListN.{get_elem?};
ghost use Rattle.atomic_table.specs.Table.{Allows};
ghost use Rattle.prl_base.specs.Values.{FitsValue};
ghost use Rattle.prl_base.specs.declared.numbers.EdgeNo.{EdgeNo as AnyEdge};
ghost use Rattle.prl_base.specs.declared.numbers.TaskNo.{TaskNo as AnyTask};
ghost use Rattle.prl_plan.specs.declared.events.Action.TheVariants as actions;
ghost use Rattle.prl_plan.specs.Vocabulary.{HasPlanFacts, IsJob, ReadsAt, action_at, IsHorizon};
ghost use Rattle.prl_plan.specs.Vocabulary.{edge_at, operand_of};
ghost use Rattle.prl_plan.specs.declared.walks.Operand.TheVariants as operands;
ghost use Rattle.prl_values.specs.JobValues.{value_on};
ghost use Rattle.prl_plan.specs.declared.events.SlotNo.{SlotNo as AnySlot};
ghost use Rattle.std.specs.Bool.{OnTrue, OnFalse};
ghost use Rattle.prl_seats.specs.Boards.{IsClosing, NamesTask};
ghost use Rattle.prl_rule.specs.Vocabulary.{slot_word, stop_word, word_count, IsOverrun};
ghost use Rattle.prl_rule.specs.Vocabulary.{ClockStopTold, EndTold, HalfTold, IsAt, IsStopFor};
ghost use Rattle.prl_rule.specs.Vocabulary.{LookTold, NowTold, RaiseTold, StopTold, TickTold};
ghost use Rattle.prl_rule.specs.Vocabulary.{WriteTold, part_at, part_of, HasValueFacts, word_of};
ghost use Rattle.prl_rule.specs.Vocabulary.{job_values_of, known, run_of, values_of, Agreed, StandsAt, all_parts};
ghost use Rattle.prl_rule.specs.Vocabulary.{bare, joined, only_part, without_part};
ghost use Rattle.prl_rule.specs.declared.views.ClockPart.{ClockPart};
ghost use Rattle.prl_rule.specs.declared.views.TaskPart.{TaskPart};
ghost use Rattle.prl_rule.specs.declared.views.View.{View};
ghost use Rattle.prl_rule.specs.declared.views.Gate.TheVariants as gates;
ghost use Rattle.prl_plan.specs.declared.graphs.Producer.TheVariants as producers;
ghost use Rattle.prl_values.specs.Fitting.{HaveTaskBodies, HaveTypedRows};
ghost use Rattle.prl_values.specs.Workers.{HaveWorkLaws, IsNewWorker};
ghost use Rattle.prl_seats.specs.code.Joining.{IsLive};
ghost use Rattle.prl_seats.specs.Parts.{share_part};
ghost use Rattle.std.specs.Mem.Slots.{slots_items, slots_len, IsFull};

use atomic_table::{Closed, Join, Play, Split, Table};
use prl_base::{EdgeNo, TaskNo, Ty};
use prl_body::Bodies;
use prl_flow::Sensors;
use prl_plan::{
    Action, Horizon, Plan, Producer, SlotNo, actions_are_as_defined, plan_facts, plan_is_one,
};
use prl_rule::{
    About, Gate, Running, View, bare_seat_may_enter, join_takes_all_parts, plan_laws,
    reads_are_of_their_edges, rule_holds_at_the_opening, run_values_keep_facts,
};
use prl_track::Routes;
use prl_values::{Worker, jobs_have_work_laws};
use prl_words::horizons_are_small;
use std::alloc::{AllocError, Global};
use std::marker::{Brand, Model, PhantomData};

/// A seat of the table.
pub type Seat = atomic_table::Seat<(), View>;

/// The words of a table that no seat steps on any more.
pub type Words = Closed<(), Global>;

/// Says what a step tells its seat, by the view before, the word that is found and the view after.
/// Each call picks it.
trait Telling {
    ghost use Rattle.std.specs.Prelude.{ℕ};
    ghost use Rattle.prl_rule.specs.declared.views.View.{View};

    ghost told: { View → ℕ → View → Type 0 };
}

impl Telling for Brand {
    ghost told = { λ before found after. Unit {0} };
}

struct Tells<J> {
    of: PhantomData<J>,
}

impl<J: Telling> Play<(), View> for Tells<J> {
    ghost use Rattle.std.specs.Prelude.{◌≡◌};

    ghost then = { λ step me found after. J.told me.0 found after.0 × (after.1 ≡ me.1) };
}

/// Names the task whose part goes to a new seat. Each call picks it.
trait Parting {
    ghost use Rattle.std.specs.Prelude.{ℕ};

    ghost task: { ℕ };
}

impl Parting for Brand {
    ghost task = { 0 };
}

struct Parts<J> {
    of: PhantomData<J>,
}

impl<J: Parting> Split<View> for Parts<J> {
    ghost use Rattle.prl_rule.specs.Steps.{only_part, without_part};

    ghost left = { without_part J.task };

    ghost right = { only_part J.task };
}

/// A look leaves what the seat knows, and tells that a seat with a part is not spent.
struct Looks;

impl Play<(), View> for Looks {
    ghost use Rattle.std.specs.Prelude.{◌≡◌};
    ghost use Rattle.prl_seats.specs.code.Joining.{IsLive};

    ghost then = { λ step me found after. (after ≡ me) × IsLive me.0 };
}

/// A seat enters with no part.
struct Enters;

impl Play<(), View> for Enters {
    ghost use Rattle.std.specs.Prelude.{◌≡◌, [], None};

    ghost then = { λ step me found after. (after.0 ≡ record { constants = me.0.constants; tasks = []; clock = None }) × (after.1 ≡ []) };
}

/// How the parts of two seats come together.
struct Merges;

impl Join<View> for Merges {
    ghost use Rattle.prl_rule.specs.Steps.{spent};
    ghost use Rattle.prl_seats.specs.code.Joining.{joined_apart};

    ghost both = { joined_apart };

    ghost spent = { spent };
}

/// The board of a run: a plan with its bodies and the rows of its sensors, a horizon, a gate, and the
/// words that all its seats share. Contracts see a `BoardView`.
pub struct Board<'a> {
    plan: &'a Plan,
    bodies: &'a Bodies,
    sensors: &'a Sensors,
    horizon: Horizon,
    gate: Gate,
    routes: Routes,
    table: Table<(), View, About<'a>, Running, Global>,
}

impl<'a> Model for Board<'a> {
    ghost use Rattle.prl_seats.specs.Boards.{BoardView};
    ghost use Rattle.prl_seats.specs.code.Kept.{IsBoard};
    ghost use Rattle.prl_rule.specs.Known.{known};
    ghost use Rattle.prl_body.specs.contracts.codes.Code as code;
    ghost use Rattle.std.specs.Coded.{codes};

    ghost Value = { BoardView };

    ghost coded = { Prim.hlevel (codes, code.the_row.coded) };

    ghost view = { λ b. record { known = known b.plan.now b.horizon b.gate b.sensors.now b.bodies.now; table = b.table.shared.table_id } };

    ghost invariant = { λ b. IsBoard (known b.plan.now b.horizon b.gate b.sensors.now b.bodies.now)
        (known b.table.shared.key.plan.now b.table.shared.key.horizon b.table.shared.key.gate b.table.shared.key.sensors.now b.table.shared.key.bodies.now) b.table.shared.table_id.words b.table.shared.table_id.slots b.routes };
}

/// So many zeros.
pub fn zeros(alloc: Global, count: usize) -> Result<Vec<u64>, AllocError>
    ensures { IfOk result (λ v. v.items ≡ replicate count 0) }
{
    vec![in alloc; 0; count]
}

/// The tag of the instance of a job with this number: the number after it.
fn tag_of_number(number: u64) -> u32
    requires { number + 1 < 2 ^ 32 }
    ensures { result ≡ number + 1 }
{
    (number + 1) as u32
}

impl<'a> Board<'a> {
    /// The board of a run at its opening, with the one seat that has all parts.
    pub fn open(
        alloc: Global,
        plan: &'a Plan,
        bodies: &'a Bodies,
        sensors: &'a Sensors,
        horizon: Horizon,
        gate: Gate,
    ) -> Result<(Board<'a>, Seat), AllocError>
        requires horizon { IsHorizon plan.now horizon }
        requires bodies { HaveTaskBodies plan.now.graph bodies.now }
        requires rows { HaveTypedRows plan.now.graph horizon.until sensors.now }
        ensures { IfOk result (λ r. (r.0.known ≡ known plan.now horizon gate sensors.now bodies.now) × (r.1.table_id ≡ r.0.table)
            × (r.1.me ≡ (all_parts (known plan.now horizon gate sensors.now bodies.now), []))) }
    {
        plan_facts(plan, horizon);
        plan_is_one(plan);
        run_values_keep_facts();
        rule_holds_at_the_opening();
        let count = 2 + plan.graph().tasks.len() + 2 * plan.total() as usize;
        let words = zeros(alloc, count)?;
        let routes = Routes::new(alloc, plan)?;
        let about = About {
            plan,
            sensors,
            bodies,
            horizon,
            gate,
        };
        let (table, seat) = Table::of_words(alloc, words.as_slice(), &about)?;
        let board = Board {
            plan,
            bodies,
            sensors,
            horizon,
            gate,
            routes,
            table,
        };
        Ok((board, seat))
    }

    /// The part of a task goes to a new seat.
    fn split_as<J: Parting>(&self, seat: &mut Seat, task: u32) -> Seat
        requires task { J.task ≡ task }
        requires table { seat.old.table_id ≡ self.now.table }
        requires part { (p : TaskPart) × (get_elem? seat.old.me.0.tasks task ≡ some (Some p)) }
        ensures rest { (seat.new.table_id ≡ seat.old.table_id) × (seat.new.id ≡ seat.old.id) × (seat.new.me ≡ (without_part task seat.old.me.0, seat.old.me.1)) }
        ensures part { (result.table_id ≡ seat.old.table_id) × (result.me ≡ (only_part task seat.old.me.0, [])) }
    {
        self.table.shared.split_seat::<Parts<J>>(seat)
    }

    /// The part of a task goes to a new seat.
    pub fn split(&self, seat: &mut Seat, task: TaskNo) -> Seat
        requires table { seat.old.table_id ≡ self.now.table }
        requires part { (p : TaskPart) × (get_elem? seat.old.me.0.tasks task.0 ≡ some (Some p)) }
        ensures rest { (seat.new.table_id ≡ seat.old.table_id) × (seat.new.id ≡ seat.old.id) × (seat.new.me ≡ (without_part task.0 seat.old.me.0, seat.old.me.1)) }
        ensures part { (result.table_id ≡ seat.old.table_id) × (result.me ≡ (only_part task.0 seat.old.me.0, [])) }
    {
        self.split_as::<Brand>(seat, task.0)
    }

    /// A new seat, which has no part.
    pub fn bare(&self) -> Seat
        ensures { (result.table_id ≡ self.now.table) × (result.me ≡ (bare self.now.known, [])) }
    {
        bare_seat_may_enter();
        let (_, seat) = self.table.shared.load_new_seat::<Enters>(0);
        seat
    }

    /// A load that changes nothing.
    fn look(&self, seat: &mut Seat)
        requires { seat.old.table_id ≡ self.now.table }
        ensures same { (seat.new.table_id ≡ seat.old.table_id) × (seat.new.id ≡ seat.old.id) × (seat.new.me ≡ seat.old.me) }
        ensures live { IsLive seat.old.me.0 }
    {
        self.table.shared.load::<Looks>(seat, 0);
    }

    /// All parts of another seat go to this one, which is not spent. No part stood in both.
    pub fn join(&self, seat: &mut Seat, other: Seat)
        requires tables { (seat.old.table_id ≡ self.now.table) × (other.table_id ≡ self.now.table) }
        requires slots { other.me.1 ≡ [] }
        requires known { seat.old.me.0.constants ≡ Some self.now.known }
        ensures same { (seat.new.table_id ≡ seat.old.table_id) × (seat.new.id ≡ seat.old.id) }
        ensures view { seat.new.me ≡ (joined seat.old.me.0 other.me.0, seat.old.me.1) }
        ensures apart { share_part seat.old.me.0 other.me.0 ≡ false }
    {
        join_takes_all_parts();
        self.table.shared.join_seat::<Merges>(seat, other);
        self.look(seat);
    }

    /// Takes the words off the table. They agree with what has happened, and so does what this seat knows.
    pub fn close(self, seat: Seat) -> Words
        requires { seat.table_id ≡ self.table }
        ensures full { IsFull result.words × (slots_len result.words ≡ word_count (run_of self.entry.known)) × (slots_len result.slots ≡ 0) }
        ensures closing { IsClosing self.entry.known seat.me.0 (slots_items result.words) }
    {
        let Board {
            plan: _,
            bodies: _,
            sensors: _,
            horizon: _,
            gate: _,
            routes,
            table,
        } = self;
        drop(routes);
        table.close_with(seat)
    }

    /// A load by the seat of a task that stands at this place.
    fn load<J: Telling>(&self, seat: &mut Seat, task: u32, place: u32, word: usize) -> u64
        requires table { seat.old.table_id ≡ self.now.table }
        requires word { word < word_count (run_of self.now.known) }
        requires allows { (slots : ℕ) → Allows (Agreed self.now.known) slots seat.old.id seat.old.me word (λ n. n)
            (λ n m. J.told seat.old.me.0 n m.0 × (m.1 ≡ seat.old.me.1)) }
        ensures same { (seat.new.table_id ≡ seat.old.table_id) × (seat.new.id ≡ seat.old.id) × (seat.new.me.1 ≡ seat.old.me.1) }
        ensures told { J.told seat.old.me.0 result seat.new.me.0 }
    {
        let _ = (task, place);
        self.table.shared.load::<Tells<J>>(seat, word)
    }

    /// A store by the seat of a task that stands at this place.
    fn store<J: Telling>(&self, seat: &mut Seat, task: u32, place: u32, word: usize, value: u64)
        requires table { seat.old.table_id ≡ self.now.table }
        requires word { word < word_count (run_of self.now.known) }
        requires allows { (slots : ℕ) → Allows (Agreed self.now.known) slots seat.old.id seat.old.me word (λ _. value)
            (λ _ m. J.told seat.old.me.0 value m.0 × (m.1 ≡ seat.old.me.1)) }
        ensures same { (seat.new.table_id ≡ seat.old.table_id) × (seat.new.id ≡ seat.old.id) × (seat.new.me.1 ≡ seat.old.me.1) }
        ensures told { J.told seat.old.me.0 value seat.new.me.0 }
    {
        let _ = (task, place);
        self.table.shared.store::<Tells<J>>(seat, word, value);
    }

    /// How many tasks the plan has.
    pub fn tasks(&self) -> u32
        ensures { result ≡ (run_of self.now.known).tasks }
    {
        plan_facts(self.plan, self.horizon);
        self.plan.graph().tasks.len() as u32
    }

    /// The end of the horizon.
    pub fn end(&self) -> u64
        ensures { result ≡ (run_of self.now.known).end }
    {
        self.horizon.end
    }

    /// Whether the clock waits for the jobs that are due.
    pub fn is_gated(&self) -> bool
        ensures yes { OnTrue result (self.now.known.gate ≡ gates.Gated) }
        ensures no { OnFalse result (self.now.known.gate ≡ gates.Gated → ⊥) }
    {
        self.gate.is_gated()
    }

    /// How many jobs of the horizon a task has.
    pub fn jobs_of(&self, task: TaskNo) -> u64
        requires { task.0 < (run_of self.now.known).tasks }
        ensures { result ≡ (run_of self.now.known).jobs task.0 }
    {
        self.horizon.jobs_of(self.plan, task)
    }

    /// The encoded release of a horizon job.
    pub fn release(&self, task: TaskNo, job: u64) -> u64
        requires { IsJob (run_of self.now.known) task.0 job }
        ensures { result ≡ (run_of self.now.known).release task.0 job }
    {
        plan_facts(self.plan, self.horizon);
        self.plan.release(task, job)
    }

    /// The encoded deadline of a horizon job.
    pub fn deadline(&self, task: TaskNo, job: u64) -> u64
        requires { IsJob (run_of self.now.known) task.0 job }
        ensures at { result ≡ (run_of self.now.known).deadline task.0 job }
        ensures positive { 1 ≤ result }
    {
        plan_facts(self.plan, self.horizon);
        self.plan.deadline(task, job)
    }

    /// The action at this place of a horizon job.
    pub fn action(&self, task: TaskNo, job: u64, place: u32) -> Action
        requires { IsJob (run_of self.now.known) task.0 job }
        ensures { result ≡ action_at (run_of self.now.known) task.0 job place }
    {
        plan_facts(self.plan, self.horizon);
        self.routes.action(self.plan, task, job, place)
    }

    /// The place after that of an action which does not end its job.
    pub fn place_after(&self, task: TaskNo, job: u64, place: u32) -> u32
        requires job { IsJob (run_of self.now.known) task.0 job }
        requires more { action_at (run_of self.now.known) task.0 job place ≡ actions.End → ⊥ }
        ensures { result ≡ place + 1 }
    {
        self.keeps_facts();
        place + 1
    }

    /// The tag of the instance of a horizon job.
    pub fn tag_of(&self, task: TaskNo, job: u64) -> u32
        requires { IsJob (run_of self.now.known) task.0 job }
        ensures { result ≡ job + 1 }
    {
        plan_facts(self.plan, self.horizon);
        horizons_are_small();
        tag_of_number(job)
    }

    /// The tag of an instance that a horizon job reads.
    pub fn tag_read(&self, instance: u64) -> u32
        requires { (i n place slot : ℕ) × ReadsAt (run_of self.now.known) i n place instance slot }
        ensures { result ≡ instance + 1 }
    {
        plan_facts(self.plan, self.horizon);
        horizons_are_small();
        tag_of_number(instance)
    }

    /// The type of an edge.
    pub fn type_of(&self, edge: EdgeNo) -> Ty
        requires { (i n place port m : ℕ) × (slot : AnySlot) × (action_at (run_of self.now.known) i n place ≡ actions.Read port edge m slot) }
        ensures { result ≡ (values_of self.now.known).types edge.0 }
    {
        actions_are_as_defined();
        self.plan.graph().edges.as_slice()[edge.0 as usize].ty
    }

    /// The rows of the sensors.
    pub fn sensors(&self) -> &Sensors
        ensures { result.now ≡ self.now.known.sensors }
    {
        self.sensors
    }

    /// The bodies.
    pub fn bodies(&self) -> &Bodies
        ensures { result.now ≡ self.now.known.bodies }
    {
        self.bodies
    }

    /// The worker of a task before its first job.
    pub fn worker(&self, alloc: Global, task: TaskNo) -> Result<Worker, AllocError>
        requires { task.0 < (run_of self.now.known).tasks }
        ensures { IfOk result (IsNewWorker self.now.known.plan self.now.known.bodies self.now.known.horizon.until task.0) }
    {
        Worker::new(alloc, self.plan, self.bodies, self.horizon, task)
    }

    /// The output of its task that an edge comes from.
    pub fn output_of(&self, edge: EdgeNo) -> u32
        requires edge { edge.0 < length self.now.known.plan.graph.edges }
        requires port { (task : AnyTask) × (out : ℕ) × ((edge_at self.now.known.plan.graph edge.0).from ≡ producers.Port task out) }
        ensures { (task : AnyTask) × ((edge_at self.now.known.plan.graph edge.0).from ≡ producers.Port task result) }
    {
        match self.plan.graph().edges.as_slice()[edge.0 as usize].from {
            Producer::Port { out, .. } => out,
            Producer::Constant(_) => unreachable!(),
        }
    }

    /// What the jobs of the run keep, what they read and give, and what their workers rest on.
    pub fn keeps_values(&self)
        ensures facts { HasPlanFacts (run_of self.now.known) }
        ensures values { HasValueFacts (run_of self.now.known) (values_of self.now.known) }
        ensures work { HaveWorkLaws self.now.known.plan self.now.known.horizon self.now.known.bodies self.now.known.sensors }
        ensures named { (i n place port : ℕ) (e : AnyEdge) (m : ℕ) (slot : AnySlot) →
            IsJob (run_of self.now.known) i n → action_at (run_of self.now.known) i n place ≡ actions.Read port e m slot →
            ((edge_at self.now.known.plan.graph e.0).to.0 ≡ i) × ((edge_at self.now.known.plan.graph e.0).port ≡ port) ×
            (operand_of (edge_at self.now.known.plan.graph e.0) n ≡ operands.From m) ×
            (value_on (job_values_of self.now.known) (edge_at self.now.known.plan.graph e.0) n ≡ Some ((values_of self.now.known).stored (slot.0 / 2) m)) }
    {
        plan_facts(self.plan, self.horizon);
        plan_is_one(self.plan);
        run_values_keep_facts();
        reads_are_of_their_edges();
        jobs_have_work_laws();
    }

    /// What the jobs of the run keep.
    pub fn keeps_facts(&self)
        ensures { HasPlanFacts (run_of self.now.known) }
    {
        plan_facts(self.plan, self.horizon);
    }

    /// The task that a stop word names.
    pub fn task_named(&self, word: u64) -> Option<TaskNo>
        requires { (before : View) × IsStopFor self.now.known before word }
        ensures { NamesTask word result }
    {
        plan_facts(self.plan, self.horizon);
        if word == 0 {
            None
        } else {
            Some(TaskNo((word - 1) as u32))
        }
    }

    /// The word of a half.
    fn word_of_half(&self, slot: SlotNo) -> usize
        ensures { result ≡ slot_word (run_of self.now.known) slot.0 }
    {
        plan_facts(self.plan, self.horizon);
        1 + self.plan.graph().tasks.len() + slot.0 as usize
    }

    /// The stop word.
    fn word_of_stop(&self) -> usize
        ensures { result ≡ stop_word (run_of self.now.known) }
    {
        plan_facts(self.plan, self.horizon);
        1 + self.plan.graph().tasks.len() + 2 * self.plan.total() as usize
    }

    /// Loads `now` for a task of which no job is open.
    pub fn load_now(&self, seat: &mut Seat, task: TaskNo) -> u64
        requires table { seat.old.table_id ≡ self.now.table }
        requires part { get_elem? seat.old.me.0.tasks task.0 ≡ some (Some (part_of task.0 seat.old.me.0)) }
        requires shut { (part_of task.0 seat.old.me.0).stand.is_open ≡ false }
        ensures same { (seat.new.table_id ≡ seat.old.table_id) × (seat.new.id ≡ seat.old.id) × (seat.new.me.1 ≡ seat.old.me.1) }
        ensures told { NowTold self.now.known task.0 seat.old.me.0 result seat.new.me.0 }
    {
        plan_laws();
        self.load::<Brand>(seat, task.0, 0, 0)
    }

    /// Loads a half for a task that stands at its read.
    pub fn load_half(&self, seat: &mut Seat, task: TaskNo, place: u32, slot: SlotNo) -> u64
        requires table { seat.old.table_id ≡ self.now.table }
        requires at { IsAt self.now.known task.0 place seat.old.me.0 }
        requires job { IsJob (run_of self.now.known) task.0 (part_at self.now.known task.0 place seat.old.me.0).stand.ended }
        requires stands { (port : ℕ) × (e : AnyEdge) × (m : ℕ) ×
            StandsAt (run_of self.now.known) task.0 (part_at self.now.known task.0 place seat.old.me.0).stand (actions.Read port e m slot) }
        ensures same { (seat.new.table_id ≡ seat.old.table_id) × (seat.new.id ≡ seat.old.id) × (seat.new.me.1 ≡ seat.old.me.1) }
        ensures told { (port : ℕ) (e : AnyEdge) (m : ℕ) →
            StandsAt (run_of self.now.known) task.0 (part_at self.now.known task.0 place seat.old.me.0).stand (actions.Read port e m slot) →
            HalfTold self.now.known task.0 place e.0 m slot.0 seat.old.me.0 result seat.new.me.0 }
    {
        plan_facts(self.plan, self.horizon);
        plan_laws();
        let word = self.word_of_half(slot);
        self.load::<Brand>(seat, task.0, place, word)
    }

    /// Stores a half's word for a task that stands at its write.
    pub fn store_half(&self, seat: &mut Seat, task: TaskNo, place: u32, slot: SlotNo, word: u64)
        requires table { seat.old.table_id ≡ self.now.table }
        requires at { IsAt self.now.known task.0 place seat.old.me.0 }
        requires job { IsJob (run_of self.now.known) task.0 (part_at self.now.known task.0 place seat.old.me.0).stand.ended }
        requires stands { (e : AnyEdge) × (m : ℕ) ×
            StandsAt (run_of self.now.known) task.0 (part_at self.now.known task.0 place seat.old.me.0).stand (actions.Write e m slot) ×
            (word ≡ word_of (values_of self.now.known) slot.0 (m + 1)) × FitsValue ((values_of self.now.known).stored (slot.0 / 2) m) }
        ensures same { (seat.new.table_id ≡ seat.old.table_id) × (seat.new.id ≡ seat.old.id) × (seat.new.me.1 ≡ seat.old.me.1) }
        ensures told { WriteTold self.now.known task.0 place seat.old.me.0 seat.new.me.0 }
    {
        plan_facts(self.plan, self.horizon);
        plan_is_one(self.plan);
        plan_laws();
        let at = self.word_of_half(slot);
        self.store::<Brand>(seat, task.0, place, at, word);
    }

    /// Stores the number of its ended jobs for a task whose job stands at its end.
    pub fn store_done(&self, seat: &mut Seat, task: TaskNo, place: u32, ended: u64)
        requires table { seat.old.table_id ≡ self.now.table }
        requires at { IsAt self.now.known task.0 place seat.old.me.0 }
        requires job { IsJob (run_of self.now.known) task.0 (part_at self.now.known task.0 place seat.old.me.0).stand.ended }
        requires ended { ended ≡ (part_of task.0 seat.old.me.0).stand.ended + 1 }
        requires stands { StandsAt (run_of self.now.known) task.0 (part_at self.now.known task.0 place seat.old.me.0).stand actions.End }
        ensures same { (seat.new.table_id ≡ seat.old.table_id) × (seat.new.id ≡ seat.old.id) × (seat.new.me.1 ≡ seat.old.me.1) }
        ensures told { EndTold self.now.known task.0 place seat.old.me.0 seat.new.me.0 }
    {
        plan_laws();
        self.store::<Brand>(seat, task.0, place, 1 + task.0 as usize, ended);
    }

    /// Stores the number after that of a task in the stop word.
    pub fn raise(&self, seat: &mut Seat, task: TaskNo, place: u32)
        requires table { seat.old.table_id ≡ self.now.table }
        requires at { IsAt self.now.known task.0 place seat.old.me.0 }
        requires over { IsOverrun (run_of self.now.known) task.0 (part_at self.now.known task.0 place seat.old.me.0).stand (part_of task.0 seat.old.me.0).kept }
        ensures same { (seat.new.table_id ≡ seat.old.table_id) × (seat.new.id ≡ seat.old.id) × (seat.new.me.1 ≡ seat.old.me.1) }
        ensures told { RaiseTold self.now.known task.0 place seat.old.me.0 seat.new.me.0 }
    {
        plan_laws();
        let word = self.word_of_stop();
        self.store::<Brand>(seat, task.0, place, word, u64::from(task.0) + 1);
    }

    /// Loads the stop word for a task.
    pub fn load_stop(&self, seat: &mut Seat, task: TaskNo, place: u32) -> u64
        requires table { seat.old.table_id ≡ self.now.table }
        requires at { IsAt self.now.known task.0 place seat.old.me.0 }
        ensures same { (seat.new.table_id ≡ seat.old.table_id) × (seat.new.id ≡ seat.old.id) × (seat.new.me.1 ≡ seat.old.me.1) }
        ensures told { StopTold self.now.known task.0 place seat.old.me.0 result seat.new.me.0 }
    {
        plan_laws();
        let word = self.word_of_stop();
        self.load::<Brand>(seat, task.0, place, word)
    }

    /// Loads a task's done word for the clock.
    pub fn load_done(&self, seat: &mut Seat, task: TaskNo) -> u64
        requires table { seat.old.table_id ≡ self.now.table }
        requires clock { (r : ClockPart) × (seat.old.me.0.clock ≡ Some r) }
        requires task { task.0 < (run_of self.now.known).tasks }
        ensures same { (seat.new.table_id ≡ seat.old.table_id) × (seat.new.id ≡ seat.old.id) × (seat.new.me.1 ≡ seat.old.me.1) }
        ensures told { (r : ClockPart) → seat.old.me.0.clock ≡ Some r → LookTold self.now.known task.0 r seat.old.me.0 result seat.new.me.0 }
    {
        plan_laws();
        self.load::<Brand>(seat, task.0, 0, 1 + task.0 as usize)
    }

    /// Stores the next `now` for the clock.
    pub fn store_now(&self, seat: &mut Seat, next: u64)
        requires table { seat.old.table_id ≡ self.now.table }
        requires clock { (r : ClockPart) × (seat.old.me.0.clock ≡ Some r) × (next ≡ r.now + 1) × (r.now < (run_of self.now.known).end) ×
            (self.now.known.gate ≡ gates.Gated → (i n : ℕ) → IsJob (run_of self.now.known) i n → (run_of self.now.known).deadline i n ≤ r.now + 1 → n < slice_index r.looks i) }
        ensures same { (seat.new.table_id ≡ seat.old.table_id) × (seat.new.id ≡ seat.old.id) × (seat.new.me.1 ≡ seat.old.me.1) }
        ensures told { (r : ClockPart) → seat.old.me.0.clock ≡ Some r → TickTold r seat.old.me.0 seat.new.me.0 }
    {
        plan_laws();
        self.store::<Brand>(seat, 0, 0, 0, next);
    }

    /// Loads the stop word for the clock.
    pub fn load_clock_stop(&self, seat: &mut Seat) -> u64
        requires table { seat.old.table_id ≡ self.now.table }
        requires clock { (r : ClockPart) × (seat.old.me.0.clock ≡ Some r) }
        ensures same { (seat.new.table_id ≡ seat.old.table_id) × (seat.new.id ≡ seat.old.id) × (seat.new.me.1 ≡ seat.old.me.1) }
        ensures told { (r : ClockPart) → seat.old.me.0.clock ≡ Some r → ClockStopTold self.now.known r seat.old.me.0 result seat.new.me.0 }
    {
        plan_laws();
        let word = self.word_of_stop();
        self.load::<Brand>(seat, 0, 0, word)
    }
}

/// A board may be shared among threads.
fn boards_are_shared() {
    is_shared::<Board>();
}

fn is_shared<T: Sync>() {}

impl<'a> Drop for Board<'a> {
    fn drop(self) {
        let Board {
            plan: _,
            bodies: _,
            sensors: _,
            horizon: _,
            gate: _,
            routes,
            table,
        } = self;
        drop(routes);
        drop(table);
    }
}
