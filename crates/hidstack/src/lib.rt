//! The C library `libhidstack`: `include/hidstack.h` declares what stands here. (The rig of devices and hosts is the crate
//! `hid_stack`.)
//! ```text
//!   hidstack_open     a report descriptor --> a handle
//!   hidstack_feed     a handle and a report --> the report's events, in the caller's table
//!   hidstack_release  a handle --> the events until nothing is held
//!   hidstack_held ..  a handle and a place --> what stands there, as a plain record
//!   hidstack_blank    a handle, a kind and an ID --> a report of zeros
//!   hidstack_close    a handle --> closed, as it was before
//!
//!   hidstack_device_open     a configuration and a report descriptor --> a handle of a virtual device
//!   hidstack_device_press ..  it and a place --> a control has changed
//!   hidstack_device_control   it and a request --> the answer, or STALL
//!   hidstack_device_report    it --> the report that is due, or NAK or STALL
//!
//!   hidstack_host_open      --> a handle of the host of a real device
//!   hidstack_host_todo      it --> the control transfer that is to be made
//!   hidstack_host_done      it and what came of that --> the next one, or an interface is live
//!   hidstack_host_report    it and an interrupt transfer --> events with their interface, in the caller's table
//!   hidstack_host_ask ..    it and what is asked of an interface --> the next control transfer
//!   hidstack_host_element ..  it and a place --> what stands there, as a plain record
//!
//!   hidstack_table    a report descriptor --> all elements, in the caller's table, with no handle
//!   hidstack_number   an element and a report --> the element's number
//!   hidstack_put      an element, a report and a number --> the report with that number
//!   hidstack_run      a script --> its text
//! ```
//! A handle is the caller's own variable. A closed one, which may be zeroed memory, may be opened; an open one may be fed, read
//! and closed. The rule to know: a wrong call returns a status and changes nothing (docs/C.md has four exceptions).
//!
//! The promise: each call's contract has the promises of the crates below: acceptance and refusal of descriptors, the view
//! and the events of [`hid_usages::View::take_report`], and the contents of the layout; of a virtual device the transfers of
//! [`hid_gadget::Gadget`], and of a host the requests, states and events of [`hid_driver::Driver`].
#![tactic(auto)]

pub mod accessors;
mod address;
pub mod device;
pub mod device_changes;
pub mod device_handle;
pub mod device_transfers;
pub mod elements;
pub mod handle;
pub mod host;
pub mod host_handle;
pub mod host_reading;
pub mod names;
mod owner;
pub mod reading;
pub mod run;
pub mod session;
pub mod setup;
pub mod status;
pub mod writing;
