//! What no clause says: that the calls return while another thread makes them too, and that memory for both is found.
mod claims;
mod notes;
