//! The tests of the public parts of the crates below the gateway, except `device_registry` and `learned_devices`, which
//! have their own. If the crates tested here had tests of their own, they would be proved once more for them.
#![tactic(auto)]

#[cfg(test)]
mod actuator_commands_tests;
#[cfg(test)]
mod bit_fields_tests;
#[cfg(test)]
mod byte_io_tests;
#[cfg(test)]
mod desk_orders_tests;
#[cfg(test)]
mod erp1_telegrams_tests;
#[cfg(test)]
mod esp3_frames_tests;
#[cfg(test)]
mod esp3_resync_tests;
#[cfg(test)]
mod exact_values_tests;
#[cfg(test)]
mod fault_texts;
#[cfg(test)]
mod gateway_cli_tests;
#[cfg(test)]
mod json_lines_tests;
#[cfg(test)]
mod profile_rows_tests;
#[cfg(test)]
mod profiles_4bs_tests;
#[cfg(test)]
mod profiles_rps_tests;
#[cfg(test)]
mod profiles_vld_tests;
#[cfg(test)]
mod readings;
#[cfg(test)]
mod teach_in_tests;
