// A listing and an assembly for C: what crate listing_api promises, under the names of `include/oddersnow.h`.
#![tactic(auto)]

ghost use Rattle.std.specs.Prelude.{◌≡◌, length};
ghost use Rattle.listing.specs.Code.{list_after};
ghost use Rattle.listing.specs.Assembling.{assemble_after};
ghost use Rattle.listing_api.specs.Packing.{assemble_packed, list_packed};

#[unsafe(no_mangle)]
pub extern "C" fn oddersnow_list(code: &[u8], out: &mut [u8]) -> u64
    ensures { (result ≡ list_packed code.now (length out.old))
        × (out.new ≡ list_after code.now out.old) }
{
    listing_api::oddersnow_list(code, out)
}

#[unsafe(no_mangle)]
pub extern "C" fn oddersnow_assemble(text: &[u8], out: &mut [u8]) -> u64
    ensures { (result ≡ assemble_packed text.now (length out.old))
        × (out.new ≡ assemble_after text.now out.old) }
{
    listing_api::oddersnow_assemble(text, out)
}
