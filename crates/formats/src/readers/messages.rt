//! The messages of supplemental enhancement information of H.264.

use crate::unit::Unit;
use bitstream_formats::element::Element;
use std::alloc::{AllocError, Global};

/// A message.
#[derive(Clone, Copy, Debug)]
struct Message {
    kind: i64,
    size: i64,
}

/// Returns the messages whose types and sizes are among the elements.
fn messages(alloc: Global, elements: &[Element]) -> Result<Vec<Message>, AllocError> {
    let mut messages = Vec::new(alloc);
    let mut kind = 0i64;
    let mut sum = 0i64;
    for element in elements {
        sum = sum.saturating_add(element.value);
        match element.name {
            "ff_byte" => {}
            "last_payload_type_byte" => {
                kind = sum;
                sum = 0;
            }
            "last_payload_size_byte" => {
                messages.push(Message { kind, size: sum })?;
                sum = 0;
            }
            _ => sum = 0,
        }
    }
    Ok(messages)
}

/// Notes the type, the size in bytes and the name of each message.
pub fn note_messages(alloc: Global, unit: &mut Unit) -> Result<(), AllocError> {
    let messages = messages(alloc, unit.elements.as_slice())?;
    for (at, message) in messages.iter().enumerate() {
        let index = Some((at & 0xffff_ffff) as u32);
        unit.note_at("payloadType", index, message.kind)?;
        unit.note_at("payloadSize", index, message.size)?;
        let name = String::from_str(alloc, name_of(message.kind))?;
        unit.note_text("message", index, name)?;
    }
    Ok(())
}

/// The names of the types from 0 on.
const NAMES: [&str; 55] = [
    "buffering_period",
    "pic_timing",
    "pan_scan_rect",
    "filler_payload",
    "user_data_registered_itu_t_t35",
    "user_data_unregistered",
    "recovery_point",
    "dec_ref_pic_marking_repetition",
    "spare_pic",
    "scene_info",
    "sub_seq_info",
    "sub_seq_layer_characteristics",
    "sub_seq_characteristics",
    "full_frame_freeze",
    "full_frame_freeze_release",
    "full_frame_snapshot",
    "progressive_refinement_segment_start",
    "progressive_refinement_segment_end",
    "motion_constrained_slice_group_set",
    "film_grain_characteristics",
    "deblocking_filter_display_preference",
    "stereo_video_info",
    "post_filter_hint",
    "tone_mapping_info",
    "scalability_info",
    "sub_pic_scalable_layer",
    "non_required_layer_rep",
    "priority_layer_info",
    "layers_not_present",
    "layer_dependency_change",
    "scalable_nesting",
    "base_layer_temporal_hrd",
    "quality_layer_integrity_check",
    "redundant_pic_property",
    "tl0_dep_rep_index",
    "tl_switching_point",
    "parallel_decoding_info",
    "mvc_scalable_nesting",
    "view_scalability_info",
    "multiview_scene_info",
    "multiview_acquisition_info",
    "non_required_view_component",
    "view_dependency_change",
    "operation_points_not_present",
    "base_view_temporal_hrd",
    "frame_packing_arrangement",
    "multiview_view_position",
    "display_orientation",
    "mvcd_scalable_nesting",
    "mvcd_view_scalability_info",
    "depth_representation_info",
    "three_dimensional_reference_displays_info",
    "depth_timing",
    "depth_sampling_info",
    "constrained_depth_parameter_set_identifier",
];

/// Returns the name of a message type (section D.1.1).
fn name_of(kind: i64) -> &'static str {
    match kind {
        0..=54 => match NAMES.as_slice().get(kind as usize) {
            Some(name) => *name,
            None => "reserved",
        },
        56 => "green_metadata",
        137 => "mastering_display_colour_volume",
        142 => "colour_remapping_info",
        144 => "content_light_level_info",
        147 => "alternative_transfer_characteristics",
        148 => "ambient_viewing_environment",
        149 => "content_colour_volume",
        150 => "equirectangular_projection",
        151 => "cubemap_projection",
        154 => "sphere_rotation",
        155 => "regionwise_packing",
        156 => "omni_viewport",
        181 => "alternative_depth_info",
        200 => "sei_manifest",
        201 => "sei_prefix_indication",
        202 => "annotated_regions",
        205 => "shutter_interval_info",
        _ => "reserved",
    }
}
