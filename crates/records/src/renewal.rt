// The image renewed where it stands: of what an event changes, only bytes that differ are written.
ghost use Rattle.std.specs.Prelude.{◌≡◌, length, replicate};
ghost use Rattle.records.specs.declared.Device.{Device};
ghost use Rattle.records.specs.Device.{with_address, with_configuration, with_endpoints, with_power, with_speed, fresh};
ghost use Rattle.records.specs.Image.{image_of, device_of};
ghost use Rattle.records.specs.Change.{with_setting, waits_after, settled_with, changed, renewed};

use crate::{Change, NOTHING};

// Where the record's fields lie in its image.
const STATE: usize = 0;

const ADDRESS: usize = 1;

const WAITING: usize = 2;

const CONFIGURATION: usize = 3;

const WAKEUP: usize = 4;

const POWER: usize = 5;

const SUSPENDED: usize = 6;

const SPEED: usize = 7;

const ALTERNATES: usize = 8;

const HALTS: usize = 24;

const TOGGLES: usize = 28;

// A byte gets a value: it is written if it has another.
pub fn put(byte: &mut u8, value: u8)
    ensures { byte.new ≡ value }
{
    if *byte != value {
        *byte = value;
    }
}

// Every byte becomes 0.
fn clear(bytes: &mut [u8])
    ensures { bytes.new ≡ replicate (length bytes.old) 0 }
{
    for byte in bytes.iter_mut() {
        put(byte, 0);
    }
}

// Every byte becomes another slice's.
fn put_all(bytes: &mut [u8], next: &[u8])
    requires { length bytes.old ≡ length next.now }
    ensures { bytes.new ≡ next.now }
{
    // Kept: by a place, since `zip` over `iter_mut` says nothing of what is written.
    for (k, byte) in bytes.iter_mut().enumerate() {
        put(byte, next[k]);
    }
}

// The sixteen settings of a record become those of an image.
#[tactic(auto, unfolding(crate::specs::Image::device_of))]
pub fn put_settings(settings: &mut [u8; 16], image: &[u8; 32])
    ensures { settings.new ≡ (device_of image.now).alternates }
{
    let whole = &image[..];
    put_all(&mut settings[..], &whole[ALTERNATES..HALTS]);
}

// What waits once a setup has settled the record and changed it: asked before anything is written, so that no byte is written twice.
fn waits_after(change: Change) -> u8
    ensures { result ≡ waits_after change }
{
    match change {
        Change::Waiting(address) => address,
        _ => NOTHING,
    }
}

// What a setup settles, if it is one.
#[tactic(auto, unfolding(crate::specs::Image::image_of))]
fn settle(image: &mut [u8; 32], settles: bool, waits: u8)
    ensures { (d : Device) → image.old ≡ image_of d → image.new ≡ image_of (settled_with settles waits d) }
{
    if settles {
        put(&mut image[WAITING], waits);
        put(&mut image[SUSPENDED], 0);
    }
}

// Another state and address; nothing waits any more.
#[tactic(auto, unfolding(crate::specs::Image::image_of))]
fn put_address(image: &mut [u8; 32], state: u8, address: u8)
    ensures { (d : Device) → image.old ≡ image_of d → image.new ≡ image_of (with_address state address d) }
{
    put(&mut image[STATE], state);
    put(&mut image[ADDRESS], address);
    put(&mut image[WAITING], NOTHING);
}

// Another state and configuration; every setting, halt and toggle becomes 0.
fn put_configuration(image: &mut [u8; 32], state: u8, value: u8)
    ensures { (d : Device) → image.old ≡ image_of d → image.new ≡ image_of (with_configuration state value d) }
{
    put(&mut image[STATE], state);
    put(&mut image[CONFIGURATION], value);
    clear(&mut image[ALTERNATES..]);
}

// Another setting of one interface.
fn put_setting(image: &mut [u8; 32], interface: u8, alternate: u8)
    ensures { (d : Device) → length d.alternates ≡ 16 → image.old ≡ image_of d
        → image.new ≡ image_of (with_endpoints (with_setting interface alternate d.alternates) d.halts d.toggles d) }
{
    if interface < 16 {
        put(&mut image[ALTERNATES + interface as usize], alternate);
    }
}

// Other halts and toggles.
fn put_endpoints(image: &mut [u8; 32], halts: u32, toggles: u32)
    ensures { (d : Device) → length d.alternates ≡ 16 → image.old ≡ image_of d → image.new ≡ image_of (with_endpoints d.alternates halts toggles d) }
{
    put_all(&mut image[HALTS..TOGGLES], &halts.to_le_bytes());
    put_all(&mut image[TOGGLES..], &toggles.to_le_bytes());
}

// The fresh record, but for its power source and its speed.
fn put_fresh(image: &mut [u8; 32], power: u8, speed: u8)
    ensures { (d : Device) → image.old ≡ image_of d → image.new ≡ image_of (with_speed speed (with_power power fresh)) }
{
    put_address(image, crate::DEFAULT, 0);
    put_configuration(image, crate::DEFAULT, 0);
    put(&mut image[WAKEUP], 0);
    put(&mut image[POWER], power);
    put(&mut image[SUSPENDED], 0);
    put(&mut image[SPEED], speed);
}

// What an event changes.
#[tactic(auto, unfolding(crate::specs::Image::image_of))]
fn apply(image: &mut [u8; 32], change: Change)
    ensures { (d : Device) → length d.alternates ≡ 16 → image.old ≡ image_of d → image.new ≡ image_of (changed change d) }
{
    match change {
        Change::Kept => {}
        Change::Waiting(address) => put(&mut image[WAITING], address),
        Change::Wakeup(on) => put(&mut image[WAKEUP], on),
        Change::Power(source) => put(&mut image[POWER], source),
        Change::Suspended(on) => put(&mut image[SUSPENDED], on),
        Change::Address { state, address } => put_address(image, state, address),
        Change::Configuration { state, value } => put_configuration(image, state, value),
        Change::Setting {
            interface,
            alternate,
            halts,
            toggles,
        } => {
            put_setting(image, interface, alternate);
            put_endpoints(image, halts, toggles);
        }
        Change::Endpoints { halts, toggles } => put_endpoints(image, halts, toggles),
        Change::Passed { toggles } => {
            put(&mut image[SUSPENDED], 0);
            put_all(&mut image[TOGGLES..], &toggles.to_le_bytes());
        }
        Change::Fresh { power, speed } => put_fresh(image, power, speed),
        Change::TestMode(speed) => {
            put(&mut image[WAITING], NOTHING);
            put(&mut image[SPEED], speed);
        }
    }
}

// The image after an event; of another length it stays.
pub fn renew(image: &mut [u8], settles: bool, change: Change)
    ensures { image.new ≡ renewed settles change image.old }
{
    if let Some(whole) = image.as_mut_array() {
        settle(whole, settles, waits_after(change));
        apply(whole, change);
    }
}
