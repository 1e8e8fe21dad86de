//! What follows for whole connections.
ghost use Rattle.std.specs.Prelude.{◌≡◌, ◌<◌, ℕ, List, [], ◌∷◌, Some, Result};
ghost use Rattle.std.specs.List.{All};
ghost use Rattle.usbip.specs.declared.message.Submit.{Submit};
ghost use Rattle.usbip.specs.declared.message.Unlink.{Unlink};
ghost use Rattle.usbip_export.specs.declared.connection.Stage.{Stage};
ghost use Rattle.usbip_export.specs.declared.description.TheConstants.{MAX_DEVICES};
ghost use Rattle.usbip_export.specs.declared.exported_device.ExportedDevice.{ExportedDevice};
ghost use Rattle.usbip_export.specs.declared.fault.ExportFault.{ExportFault};
ghost use Rattle.usbip_export.specs.Answers.{AnswersSubmitsOnce, AnswersUnlinksOnce, Happening};
ghost use Rattle.usbip_export.specs.Connections.{Takes, devices_after_end, devices_after_report};
ghost use Rattle.usbip_export.specs.Descriptions.{bus_id_text, named_place, text_field};
ghost use Rattle.usbip_export.specs.ExportedDevices.{device_after_unlink};
ghost use Rattle.usbip_export.specs.Holders.{HaveHolders, IsFree, NoneIsShared};
ghost use Rattle.usbip_export.specs.Payloads.{ReportHasPayload, SubmitHasPayload};

/// Each submit to a device is answered once, or waits still, whatever comes in whatever order, and whatever its gadget does meanwhile:
/// by RET_SUBMIT with its number, at once or when a report is due, or by RET_UNLINK with -104 in its place. Each unlink is answered
/// once, by RET_UNLINK with its number. The end of a connection isn't among what comes: what waits then is forgotten.
#[tactic(auto, using(crate::proofs::AnswerLemmas::submits_once, crate::proofs::AnswerLemmas::unlinks_once))]
pub fn each_command_is_answered_once()
    ensures submits { (device : ExportedDevice) (happenings : List Happening) → AnswersSubmitsOnce device happenings }
    ensures unlinks { (device : ExportedDevice) (happenings : List Happening) → AnswersUnlinksOnce device happenings }
{}

/// A reply has the data that it says: to the host as many as its length, at most those that were asked for, and none to a submit that
/// sends data.
pub fn replies_have_their_payloads()
    ensures submit { (device : ExportedDevice) (submit : Submit) → SubmitHasPayload device submit }
    ensures report { (device : ExportedDevice) → ReportHasPayload device }
{}

/// An unlink takes no report of its device: the gadget is as it was.
pub fn an_unlink_takes_no_report()
    ensures { (device : ExportedDevice) (unlink : Unlink)
        → (device_after_unlink device unlink).gadget ≡ device.gadget }
{}

/// No device has two connections, whatever bytes come in whichever of them: one that another connection has is busy.
#[tactic(auto, using(crate::proofs::HolderLemmas::free_holders, crate::proofs::HolderLemmas::takes_holders, crate::proofs::HolderLemmas::reports_holders, crate::proofs::HolderLemmas::ends_holders, crate::proofs::HolderLemmas::none_is_shared))]
pub fn no_device_is_shared()
    // Of each device it is known whether one has it: at first none does, and so it stays through all calls.
    ensures begins { (devices : List ExportedDevice) → All IsFree devices → HaveHolders devices [] }
    ensures joins { (devices : List ExportedDevice) (others : List Stage) → HaveHolders devices others
        → HaveHolders devices (Stage.Operation ∷ others) }
    ensures takes { (stage next : Stage) (others : List Stage) (devices left : List ExportedDevice)
        (bytes room filled : List ℕ) (result : Result ℕ ExportFault)
        → HaveHolders devices (stage ∷ others) → Takes stage devices bytes room result next left filled
        → HaveHolders left (next ∷ others) }
    ensures reports { (stage : Stage) (others : List Stage) (devices : List ExportedDevice)
        → HaveHolders devices (stage ∷ others)
        → HaveHolders (devices_after_report devices stage) (stage ∷ others) }
    ensures ends { (stage : Stage) (others : List Stage) (devices : List ExportedDevice)
        → HaveHolders devices (stage ∷ others)
        → HaveHolders (devices_after_end devices stage) (Stage.Over ∷ others) }
    // Then no two have the same.
    ensures once { (devices : List ExportedDevice) (stages : List Stage) → HaveHolders devices stages
        → NoneIsShared stages }
{}

/// The bus ID of a device names its place.
#[tactic(auto, using(crate::proofs::DescriptionLemmas::bus_id_is_found))]
pub fn bus_ids_are_found()
    ensures { (place : ℕ) → place < MAX_DEVICES → named_place (text_field 32 (bus_id_text place)) ≡ Some place }
{}
