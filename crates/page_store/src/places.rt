//! Where everything lies on the device, by pages.
use eeprom_model::PAGE_LENGTH;
use store_form::OWN_END;

/// The device has so many pages.
pub const PAGE_COUNT: usize = 1_120;

/// The device has so many bytes.
pub const DEVICE_SIZE: usize = PAGE_LENGTH * PAGE_COUNT;

/// The content has so many bytes.
pub const CONTENT_SIZE: usize = 65_536;

/// The content has so many pages.
pub const PAGES: usize = CONTENT_SIZE / PAGE_LENGTH;

/// The first page of the content that the map names. Those below lie at their own place.
pub const FIRST_MAPPED: usize = 13;

/// The map names so many pages of the content, all from the first on.
pub const MAPPED: usize = PAGES - FIRST_MAPPED;

/// The place of the map, which has two bytes for each page that it names.
pub const MAP: usize = OWN_END;

/// The first byte after the map.
pub const MAP_END: usize = MAP + 2 * MAPPED;

/// The first page of the pool, in which the mapped pages lie. It goes to the end of the device.
pub const POOL: usize = 45;

/// So many pages of the pool are free.
pub const FREE: usize = PAGE_COUNT - POOL - MAPPED;
