//! Tests of libraries that can't be rows: transfers that run out of memory (`usb_control`), layouts that do, descriptors made
//! by the thousand and fields of over 32 bits (`hid_layout`), drawings (`hid_page`) and recordings (`hid_recording`), through
//! their exports. They are a crate of their own, since a crate with tests is proved twice. Each file says where its expected
//! values come from.
#![tactic(auto)]

#[cfg(test)]
mod drawings;
#[cfg(test)]
mod generated;
#[cfg(test)]
mod layout_memory;
#[cfg(test)]
mod recordings;
#[cfg(test)]
mod transfer_memory;
#[cfg(test)]
mod wide_fields;
