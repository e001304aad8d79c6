// What no step of a call changes.
use crate::settings::Settings;
use oci_names::Reference;

/// What no step of a call changes: the client's settings, the requested image, and the moment in seconds since 1970.
#[derive(Clone, Copy)]
pub struct Call<'a> {
    pub settings: &'a Settings,
    pub image: &'a Reference,
    pub moment: u64,
}
