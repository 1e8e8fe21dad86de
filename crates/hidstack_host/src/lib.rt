//! The host of a real device, as the plain records that C sees: a `Driver` of `hid_driver` with room of its own for events.
//! ```text
//!   Host::done     what came of a control transfer --> a move, and room for the events of what is read from then on
//!   Host::report   what came of an interrupt transfer --> events as records, in the caller's table
//!   Host::reset    unplugged, or the bus was reset --> the events that let go of what is held
//!
//!   interface_at, host_info     a place --> what is known of the interface there, and of the device, as numbers
//!   element_at, held_at ..      a place, an item and an index --> what stands there
//!   find_element                a place, a kind of report and a usage --> the element that has it
//!   fault_number, cause_code    H1 to H16, and the causes of an interface, as numbers
//! ```
//! The rules to know: an interface is named by its place in the list of the driver, from 0; requests name it by its number. Memory
//! is taken by [`Host::done`] alone, and where it runs out nothing changes.
//!
//! The promise: each call does what the driver's does, by the definitions of `hid_driver`: the clauses on [`Host::done`],
//! [`Host::report`], [`Host::ask`], [`Host::set_protocol`] and [`Host::reset`]. A record asks for what [`ask_of`] reads in it, and
//! [`interface_at`], [`host_info`], [`find_element`] and their like show what the driver knows.
#![tactic(auto)]

mod asked;
mod cause;
mod event;
mod find;
mod host;
mod info;
mod moved;
mod reading;

pub use asked::{GET_REPORT, HidAsk, SET_IDLE, SET_REPORT, ask_of};
pub use cause::{Code, cause_code, detail_number, fault_number};
pub use event::{HidHostEvent, host_event, put_host_events, put_interface_events};
pub use find::find_element;
pub use hid_driver::{
    Ask, Driver, DriverEvent, DriverFault, InterfaceCause, InterfaceState, Moved, Outcome, Setup,
    Todo,
};
pub use host::{Host, Told};
pub use info::{
    HOST_READY, HOST_REFUSED, HOST_WAITING, HidHostInfo, HidInterface, INTERFACE_BOOT,
    INTERFACE_HALTED, INTERFACE_LIVE, INTERFACE_REFUSED, INTERFACE_STOPPED, INTERFACE_WAITING,
    host_info, interface_at,
};
pub use moved::{
    HidMoved, MOVE_ANSWERED, MOVE_CLEARED, MOVE_LIVE, MOVE_ONWARD, MOVE_REFUSED, MOVE_STOPPED,
    moved_record, refused_record,
};
pub use reading::{element_at, held_at, layout_at, value_at};
