//! Theorems about the definitions and about every gateway. Each function does nothing: its contract is the theorem.
ghost use Rattle.std.specs.Prelude.{◌≡◌, ℕ, List, [], ◌++◌};
ghost use Rattle.esp3_frames.specs.PacketsAndRest.{packets_in, rest_of};
ghost use Rattle.learned_devices.specs.Devices.{Devices};
ghost use Rattle.gateway_core.specs.SessionCalls.{CallsAreSessions, ClosesEndSessions, CrashesEndSessions};
ghost use Rattle.gateway_core.specs.Calls.{CallsAreARun, BytesOneByOne};
ghost use Rattle.gateway_core.specs.Counting.{ExplanationsAreCounted, AppliedPacketsAreCounted};
ghost use Rattle.gateway_core.specs.Events.{AnswersDoNotDependOnChunks, InputsDoNotDependOnChunks, InputEvent};
ghost use Rattle.gateway_core.specs.Events.{new_packets, bytes_in, inputs_of};
ghost use Rattle.gateway_core.specs.Explaining.{ExplanationsAreTrue};
ghost use Rattle.gateway_core.specs.Handling.{Handles, HandlerValue};
ghost use Rattle.gateway_core.specs.Sessions.{UpdatesSurviveRestarts};
ghost use Rattle.gateway_core.specs.Prefixes.{SessionsLeavePrefixes, CrashStatesArePrefixes, AcknowledgedAreInPrefix};
ghost use Rattle.gateway_core.specs.Prefixes.{PrefixesEndSessions};
ghost use Rattle.gateway_core.specs.Ranges.{InputsAreOfBytes, SessionsLeaveDevicesInRange, StaysInRange};
ghost use Rattle.gateway_core.specs.Ranges.{ReportsInRange};
ghost use Rattle.gateway_core.specs.Run.{FailuresAreCounted, SameFailuresGiveSameAnswers};
ghost use Rattle.gateway_core.specs.Step.{Answer, Input};
ghost use Rattle.gateway_core.specs.CrashStates.{IsOneOf, CrashConsistencyComposes};
ghost use Rattle.gateway_core.specs.Reporting.{UpdatesAreReported, AnswersToLabelsAreTrue, RadioIsReplyOrOrdered};
ghost use Rattle.gateway_core.specs.Reporting.{TeachLinesAreTrue};
ghost use Rattle.gateway_core.specs.Acknowledgements.{AcceptedOrDeletedIsDurable};
ghost use Rattle.gateway_core.specs.Windows.{PacketsLearnOnlyInWindows};

use learned_devices::DeviceStore;

/// The inputs do not depend on how the bytes between two order lines are split into chunks.
pub fn inputs_do_not_depend_on_chunks()
    ensures { InputsDoNotDependOnChunks }
{}

/// The inputs of two consecutive lists of events are those of the first, and then those of the second after the bytes
/// of the first. The packets that a chunk completes depend only on the rest of the stream.
pub fn inputs_of_appended_events()
    ensures items { (stream : List ℕ) (events more : List InputEvent) →
        inputs_of stream (events ++ more) ≡ inputs_of stream events ++ inputs_of (stream ++ bytes_in events) more }
    ensures rest { (stream bytes : List ℕ) → new_packets stream bytes ≡ packets_in (rest_of stream ++ bytes) }
{}

/// Two handled lists of inputs, one after the other, are handled as their concatenation.
pub fn handled_inputs_concatenate<S: DeviceStore>()
    ensures nothing { (handler : HandlerValue S) → Handles S.store_state handler [] [] handler }
    ensures join { (old mid new : HandlerValue S) (inputs more : List Input) (answers after : List Answer) →
        Handles S.store_state old inputs answers mid → Handles S.store_state mid more after new
        → Handles S.store_state old (inputs ++ more) (answers ++ after) new }
{}

/// If the same inputs fail for the same causes, at their commits or before, the answers are the same.
pub fn same_failures_give_same_answers()
    ensures { SameFailuresGiveSameAnswers }
{}

/// If the same inputs fail for the same causes, the answers do not depend on how the bytes between two order lines are
/// split into chunks.
pub fn answers_do_not_depend_on_chunks()
    ensures { AnswersDoNotDependOnChunks }
{}

/// The counter of failed inputs is incremented once for each of them, and by nothing else.
pub fn failures_are_counted()
    ensures { FailuresAreCounted }
{}

/// An applied packet increments one counter, that of teach-in exactly when it is answered with a teach line. An applied
/// order line increments none, even if it is answered with a teach line.
pub fn applied_packets_are_counted()
    ensures { AppliedPacketsAreCounted }
{}

/// One line explains each packet, applied or failed, and gives the reason in one word: `read` exactly when the desk
/// receives a reading, `response` for a response, the outcome for a teach line, `refused` for a failed packet, and any
/// other word when the desk receives no other line. The packet increments only the counter of this word: `readings`,
/// `responses`, `teach` and `refused`, in this order, and `ignored` for any other. No order is explained.
pub fn explanations_are_counted()
    ensures { ExplanationsAreCounted }
{}

/// The line that explains an applied packet is true: its word holds for the packet and for what was known. It shows the
/// profile and maker of the query, if the packet is one, and otherwise only those of the device that the packet teaches
/// in, or whose data was looked at.
pub fn explanations_are_true()
    ensures { ExplanationsAreTrue }
{}

/// Any calls of a new gateway, in any order, are a run on packets and order lines in the order of the calls. The
/// handled packets, followed by the ready ones, are the packets of the bytes given.
pub fn calls_are_a_run<S: DeviceStore>()
    ensures { CallsAreARun S.store_state }
{}

/// A call with several bytes does what one call for each of them does, if none before the last makes a packet ready. So
/// `GatewayOver::bytes` does what `GatewayOver::byte` does for each byte that it takes.
pub fn bytes_one_by_one<S: DeviceStore>()
    ensures { BytesOneByOne S.store_state }
{}

/// Crash consistency composes: if each of two consecutive lists of inputs is crash-consistent, so is their
/// concatenation.
pub fn crash_consistency_composes<S: DeviceStore>()
    ensures { (registry : S) → CrashConsistencyComposes (S.store_state registry).may_recover }
{}

/// The same from the devices that a session found, and from any list of maps.
pub fn crash_consistency_composes_in_a_session()
    ensures found { (found : Devices) → CrashConsistencyComposes (λ devices. devices ≡ found) }
    ensures listed { (maps : List Devices) → CrashConsistencyComposes (IsOneOf maps) }
{}

/// Any maps that a crash may leave.
pub trait PriorDevices {
    ghost are: { Devices → Type 0 };
}

/// The same from any maps.
pub fn crash_consistency_composes_from_any<M: PriorDevices>()
    ensures { CrashConsistencyComposes M.are }
{}

/// Every later session finds what an acknowledged update guarantees, until an input overrides it: the learned profile
/// and maker, until the sender is learned otherwise or forgotten; that it is forgotten, until it is learned; its label,
/// until it is labelled otherwise or forgotten.
pub fn updates_survive_restarts()
    ensures { UpdatesSurviveRestarts }
{}

/// An update acknowledged with `accepted` or `deleted` holds in every later session, until an input changes that
/// sender otherwise. If the devices found are in range and the data of packets are bytes, the device is in range, and a
/// line in range is the line of this device.
pub fn accepted_or_deleted_is_durable()
    ensures { AcceptedOrDeletedIsDurable }
{}

/// The packets of a stream of bytes consist of bytes. Then a state in range stays in range, a session that found
/// devices in range leaves devices in range, and in a state in range, a teach line with `accepted` or `deleted` has the
/// text of the line of a device in range.
pub fn numbers_stay_in_range()
    ensures items { InputsAreOfBytes }
    ensures stays { StaysInRange }
    ensures leaves { SessionsLeaveDevicesInRange }
    ensures reports { ReportsInRange }
{}

/// A crash state is what was known after a prefix of the inputs, perhaps with the update of the next one, if the call
/// that commits it failed. The prefix contains every acknowledged input.
pub fn crash_states_are_prefixes()
    ensures safe { CrashStatesArePrefixes }
    ensures reported { AcknowledgedAreInPrefix }
{}

/// A session leaves what was known after a prefix of its inputs that contains every acknowledged one, or after all
/// of them and the one in progress.
pub fn sessions_leave_prefixes()
    ensures { SessionsLeavePrefixes }
{}

/// A run is a session, if a crash left the devices after a prefix of its inputs that contains every acknowledged one.
/// So the theorems about sessions hold for `replay` and `live`, whose postcondition `as_specified` says this.
pub fn prefixes_end_sessions()
    ensures { PrefixesEndSessions }
{}

/// Only an applied input is answered with a teach line. With `accepted` it learns the device in the line. With
/// `deleted` it forgets that device: an order line forgets a learned one; a packet forgets the sender of its telegram,
/// learned or not, with the profile and maker of its query. With any other outcome it changes neither the devices nor
/// the mode.
pub fn teach_lines_are_true()
    ensures { TeachLinesAreTrue }
{}

/// An applied input that changes the devices reports it: with the teach line `accepted` or `deleted` of the device that
/// it learns or forgets, or, if it is an order line that labels a learned device, with `ok`.
pub fn updates_are_reported()
    ensures { UpdatesAreReported }
{}

/// A line that spells a `label` order labels a learned device if it is answered `ok`; if it is answered
/// `unknown_device`, no such device is learned, and nothing changes. If it is applied and not too long, it gets one of
/// these answers.
pub fn answers_to_labels_are_true()
    ensures { AnswersToLabelsAreTrue }
{}

/// Only an applied input sends bytes by radio. Those of a packet are the reply to its query, with the outcome of the
/// teach line, in a window for all senders: to a 4BS query in the mode `LearnAnswer`, or to a UTE query that waits for
/// a reply. Those of an order line are the packet of its order, which is answered `ok`.
pub fn radio_is_reply_or_ordered()
    ensures { RadioIsReplyOrOrdered }
{}

/// A packet changes the devices only in an open window: it learns its sender, or forgets its sender if it is a query
/// for that and the window is for all senders. It changes the mode only if it learns and the window is for one sender,
/// which then closes.
pub fn packets_learn_only_in_windows()
    ensures { PacketsLearnOnlyInWindows }
{}

/// After the calls of a session, a crash leaves what a session may leave.
pub fn crash_after_calls_ends_session<S: DeviceStore>()
    ensures { CallsAreSessions S.store_state }
{}

/// From the write of the next input on, also after its commit and before its answer, a crash leaves what a session
/// that crashed in that input may leave.
pub fn crash_in_input_ends_session<S: DeviceStore>()
    ensures { CrashesEndSessions S.store_state }
{}

/// A session leaves what is known at its end, however it is closed.
pub fn closed_session_leaves_last<S: DeviceStore>()
    ensures { ClosesEndSessions S.store_state }
{}
