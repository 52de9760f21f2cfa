//! Laws of cores that are well formed: what their runs never do. Each is the contract of a function that does nothing.

ghost use Rattle.hy_core.specs.States.{ReadyStates};
ghost use Rattle.hy_core.specs.Ready.{
  ComputedIsFlow,
  FlowAgrees,
  FlowIsCalm,
  FlowIsDropped,
  ReadyCoresAgree,
  ReadyCoresAreCalm,
  ReadyCoresDropAll,
  ShapedIsNeverStuck,
};

/// A core of the right shape never gets stuck, whatever it is given. `docs/CORE.md` says what the shape is.
pub fn shaped_is_never_stuck()
    ensures { ShapedIsNeverStuck }
{}

/// A core that has a flow is calm in every run, also where its `Drop` deinitialises: it touches nothing that overlaps what is open,
/// reads, moves and gives up nothing that is unset, and closes only what it opened. `docs/CORE.md` says what a flow is.
pub fn flow_is_calm()
    ensures { FlowIsCalm }
{}

/// So the two meanings of a core that has a flow are equal.
pub fn flow_agrees()
    ensures { FlowAgrees }
{}

/// A core that has a flow gives up what it owns: at each `Leave` nothing that the body opened is open, and of an owned local, save
/// what is handed out, a checked core has nothing set and another no array; and no statement stores over a set array, or gives up
/// an array that has an element which holds an array.
pub fn flow_is_dropped()
    ensures { FlowIsDropped }
{}

/// Where a core is ready, every run of it touches nothing that overlaps what is open, so its two meanings are equal.
/// `docs/CORE.md` says what ready is.
pub fn ready_cores_agree()
    ensures { ReadyCoresAgree }
{}

/// Where a core is ready, every run of it is calm.
pub fn ready_cores_are_calm()
    ensures { ReadyCoresAreCalm }
{}

/// A ready core gives up all that it owns: at each `Leave` nothing of an owned local is set, save what is handed out.
pub fn ready_cores_drop_all()
    ensures { ReadyCoresDropAll }
{}

/// A flow that is computed, body by body, is a flow: at each statement the flow state is known, and allows the statement.
pub fn computed_flow_is_flow()
    ensures { ComputedIsFlow }
{}

/// In each state of the two runs of a core that has a flow, whatever it is given, both have one control, the memories agree, and
/// all that the next step asks and does is allowed. `docs/CORE.md` says what that is.
pub fn ready_states()
    ensures { ReadyStates }
{}
