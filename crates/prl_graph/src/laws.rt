//! Laws of task graphs, as functions that do nothing: the contract of each is the law.

ghost use Rattle.std.specs.Prelude.{◌≡◌, ◌<◌, ◌⊎◌, ℕ, List, Some, slice_get};
ghost use Rattle.std.specs.List.{AllByRecursion};
ghost use Rattle.prl_base.specs.Vocabulary.{date_at, type_of};
ghost use Rattle.prl_base.specs.declared.numbers.FlowNo.{FlowNo};
ghost use Rattle.prl_base.specs.declared.operators.Clock.{Clock};
ghost use Rattle.prl_base.specs.declared.values.Value.{Value};
ghost use Rattle.prl_body.specs.Bodies.{IsWellTyped};
ghost use Rattle.prl_body.specs.declared.bodies.CheckedBody.{CheckedBody};
ghost use Rattle.prl_flow.specs.Vocabulary.{HaveBodies, registers_before, values_at, FlatProgram};
ghost use Rattle.prl_flow.specs.Vocabulary.{HasType, IsFlat, Rows, rows_of, AreClocks, HasRows};
ghost use Rattle.prl_flow.specs.Vocabulary.{Solves, argument_flows, clock_of, HasNoCycle};
ghost use Rattle.prl_flow.specs.declared.programs.App.{App};
ghost use Rattle.prl_plan.specs.Vocabulary.{IsWellFormed, task_at, operand_of};
ghost use Rattle.prl_plan.specs.declared.graphs.Edge.{Edge};
ghost use Rattle.prl_plan.specs.declared.graphs.TaskGraph.{TaskGraph};
ghost use Rattle.prl_values.specs.Fitting.{HaveTaskBodies, HaveTypedRows};
ghost use Rattle.prl_values.specs.JobValues.{AreJobValues, reads_of_job, value_on};
ghost use Rattle.prl_graph.specs.declared.faults.GraphFault.{GraphFault};
ghost use Rattle.prl_graph.specs.Edges.{IsEdgeOf};
ghost use Rattle.prl_graph.specs.EdgeValues.{value_of_operand, value_on_date};
ghost use Rattle.prl_graph.specs.JobDates.{values_on_dates};
ghost use Rattle.prl_graph.specs.Ports.{InputPort, node_no, ports_of};
ghost use Rattle.prl_graph.specs.TaskGraphs.{AreSmallClocks, IsGraphFault, IsGraphOf, IsOfProgram};
ghost use Rattle.prl_graph.specs.Tasks.{application_clock};

/// The law of one edge: in each solution of the flat program, what a port's flow has at the date of
/// job `n` is the operand's constant, or what the producer's flow has at the date of the operand's
/// instance.
pub fn edge_gives_operand()
    ensures { (p : FlatProgram) (clocks : List Clock) (bodies : List CheckedBody) (rows : Rows) (until : ℕ) (flows : List (List Value)) →
        IsFlat p → AreClocks p clocks → Solves p clocks bodies rows until flows →
        (e : ℕ) (port : InputPort) (edge : Edge) → slice_get (ports_of p) e ≡ Some port → (of : IsEdgeOf p clocks port edge) →
        (n : ℕ) → date_at (clock_of clocks port.flow) n < until →
        value_on_date clocks flows port.flow n ≡ value_of_operand clocks flows of.source (operand_of edge n) }
{}

/// The values by instance of the graph's jobs are the values that a solution of the flat program has
/// at the jobs' dates: what they give, what they read on each edge, and the registers before them.
pub fn solutions_give_job_values()
    ensures given { (p : FlatProgram) (clocks : List Clock) (bodies : List CheckedBody) (rows : Rows) (until : ℕ) (flows : List (List Value)) →
        IsFlat p → AreClocks p clocks → AreSmallClocks clocks → HaveBodies p bodies → AllByRecursion IsWellTyped bodies →
        Solves p clocks bodies rows until flows → (graph : TaskGraph) → IsGraphOf p clocks graph → IsWellFormed graph →
        AreJobValues graph bodies rows until (values_on_dates p clocks flows graph) }
    ensures operands { (p : FlatProgram) (clocks : List Clock) (bodies : List CheckedBody) (rows : Rows) (until : ℕ) (flows : List (List Value)) →
        IsFlat p → AreClocks p clocks → AreSmallClocks clocks →
        Solves p clocks bodies rows until flows → (graph : TaskGraph) → IsGraphOf p clocks graph →
        (e : ℕ) (port : InputPort) (edge : Edge) → slice_get (ports_of p) e ≡ Some port → slice_get graph.edges e ≡ Some edge →
        (n : ℕ) → date_at (clock_of clocks port.flow) n < until →
        value_on (values_on_dates p clocks flows graph) edge n ≡ value_on_date clocks flows port.flow n }
    ensures registers { (p : FlatProgram) (clocks : List Clock) (bodies : List CheckedBody) (rows : Rows) (until : ℕ) (flows : List (List Value)) →
        IsFlat p → AreClocks p clocks → AreSmallClocks clocks →
        Solves p clocks bodies rows until flows → (graph : TaskGraph) → IsGraphOf p clocks graph →
        (k n : ℕ) (app : App) (body : CheckedBody) → slice_get p.apps k ≡ Some app → date_at (application_clock clocks app) n < until →
        registers_before body (reads_of_job graph (values_on_dates p clocks flows graph) (node_no p k)) n
        ≡ registers_before body (values_at (application_clock clocks app) (argument_flows flows app)) n }
{}

/// Bodies that fit the applications fit the tasks of the graph, and rows of the types of main's inputs, one for each date, serve
/// the tasks of its sensors.
pub fn bodies_and_rows_serve_tasks()
    ensures bodies { (p : FlatProgram) (clocks : List Clock) (bodies : List CheckedBody) (graph : TaskGraph) →
        IsFlat p → IsGraphOf p clocks graph → HaveBodies p bodies → AllByRecursion IsWellTyped bodies → HaveTaskBodies graph bodies }
    ensures rows { (p : FlatProgram) (clocks : List Clock) (rows : Rows) (until : ℕ) (graph : TaskGraph) →
        IsFlat p → IsGraphOf p clocks graph → HasRows p clocks rows until →
        ((k : ℕ) (flow : FlowNo) → slice_get p.ins k ≡ Some flow → (n : ℕ) (v : Value) → slice_get (rows_of rows k) n ≡ Some v →
        HasType p (type_of v) flow) →
        HaveTypedRows graph until rows }
{}

/// Each flat program with clocks and without a cycle has one task graph, or one fault, and not both.
pub fn graphs_end_one_way()
    ensures end { (p : FlatProgram) (clocks : List Clock) → IsFlat p → AreClocks p clocks → HasNoCycle p →
        ((graph : TaskGraph) × IsGraphOf p clocks graph) ⊎ ((fault : GraphFault) × IsOfProgram fault × IsGraphFault p clocks fault) }
    ensures one_graph { (p : FlatProgram) (clocks : List Clock) (a b : TaskGraph) →
        IsGraphOf p clocks a → IsGraphOf p clocks b → a ≡ b }
    ensures one_fault { (p : FlatProgram) (clocks : List Clock) (a b : GraphFault) → IsOfProgram a → IsOfProgram b →
        IsGraphFault p clocks a → IsGraphFault p clocks b → a ≡ b }
    ensures not_both { (p : FlatProgram) (clocks : List Clock) (graph : TaskGraph) (fault : GraphFault) → IsOfProgram fault →
        IsGraphOf p clocks graph → IsGraphFault p clocks fault → ⊥ }
{}

/// The task graph of a flat program with small clocks and without a cycle is well formed.
pub fn graphs_are_well_formed()
    ensures { (p : FlatProgram) (clocks : List Clock) → IsFlat p → AreClocks p clocks → AreSmallClocks clocks → HasNoCycle p →
        (graph : TaskGraph) → IsGraphOf p clocks graph → IsWellFormed graph }
{}

/// At each port a task reads a flow of its own clock.
pub fn ports_have_the_clock_of_their_task()
    ensures { (p : FlatProgram) (clocks : List Clock) → IsFlat p → AreClocks p clocks → AreSmallClocks clocks →
        (graph : TaskGraph) → IsGraphOf p clocks graph → (e : ℕ) (port : InputPort) → slice_get (ports_of p) e ≡ Some port →
        (task_at graph port.task).clock ≡ clock_of clocks port.flow }
{}
