//! What stands on each page: its style, and the parts of it that hold no word of the mapping.

/// What is said of the page's elements, on a screen of any width, light or dark, and on paper. Places and heights are told in units: one is a point wide where
/// there is room, and more where a row has two lines.
pub(crate) const STYLE: &str = "
*{box-sizing:border-box}
:root{color-scheme:light dark;--u:1px;--paper:#fff;--ink:#1c2733;--soft:#5d6e80;--faint:#7f8f9e;--rule:#dfe5ea;--row:#f8fafc;--tile:#f6f9fb;--chip:#e8eff5;--blue:#2c6e9f;--sky:#9cc6e4;--amber:#a86400;--sand:#f2c36b;--amberrow:#fff9ec;--red:#b3261e;--redrow:#fdf4f3}
@media screen and (prefers-color-scheme:dark){:root{--paper:#11171d;--ink:#dde5ec;--soft:#97a6b5;--faint:#75848f;--rule:#2b353e;--row:#171e25;--tile:#182129;--chip:#25313b;--blue:#74b4e2;--sky:#3d7aa6;--amber:#e3a845;--sand:#a97b2c;--amberrow:#272013;--red:#ff8a80;--redrow:#2b1b1b}}
body{margin:24px auto;max-width:1400px;padding:0 24px;font:13px/20px system-ui,sans-serif;color:var(--ink);background:var(--paper)}
h1{font-size:20px;line-height:28px;margin:0;font-weight:650;letter-spacing:-.01em}
h1 span{font-weight:400;color:var(--soft)}
h2{font-size:14px;margin:24px 0 4px;font-weight:650}
p{margin:0;color:var(--soft)}
small{font-size:11px;font-weight:400;color:var(--soft);white-space:pre}
nav{display:grid;grid-template-columns:repeat(4,1fr);gap:12px;margin:16px 0 12px}
nav a{display:grid;grid-template-columns:auto 1fr;grid-template-rows:auto 1fr;column-gap:8px;align-items:baseline;padding:8px 12px;border-left:3px solid var(--sky);background:var(--tile);color:inherit;text-decoration:none}
nav b{font-size:20px;line-height:24px;font-weight:650;grid-row:span 2}
nav small{line-height:16px;overflow-wrap:anywhere;white-space:normal}
nav .amb{border-color:var(--sand);background:var(--amberrow)}
nav .bad{border-color:var(--red);background:var(--redrow)}
nav .none{border-color:var(--rule);color:var(--soft)}
.ribs{display:grid;grid-template-columns:42% 42%;justify-content:space-between;margin-bottom:12px}
.rib{display:block;width:100%;height:10px}
.rib rect{fill:var(--sky);stroke:var(--paper);stroke-width:1px;vector-effect:non-scaling-stroke}
.rib .no rect{fill:var(--rule)}
.rib .amb rect{fill:var(--sand)}
.rib .bad rect{fill:var(--red)}
.map{position:relative;height:calc(var(--h)*var(--u))}
.side{position:absolute;top:0;width:42%}
.in{left:0}
.out{right:0}
.g,.e,.u{position:absolute;left:calc(var(--d)*14px);right:0;top:calc(var(--y)*var(--u));height:calc(var(--h)*var(--u))}
.u{left:calc(var(--d)*14px + 5px);right:auto;width:1px;background:var(--rule)}
.w{display:flex;gap:10px;height:20px;line-height:20px;white-space:nowrap;align-items:baseline}
.w b{flex:0 1 auto;overflow:hidden;text-overflow:ellipsis}
.g b{font-weight:650}
.g .w{border-bottom:1px solid var(--rule);padding-right:6px}
.e{padding:0 6px 0 8px;border-left:2px solid var(--sky);background:var(--row)}
.e b{font-weight:500}
.w small{flex:0 20 auto;overflow:hidden;text-overflow:ellipsis;margin-left:-10px}
.q small{margin:0}
.p,.o{flex:none;color:var(--soft);font-size:11px}
.p{flex:0 8 auto;overflow:hidden;text-overflow:ellipsis}
.m{flex:none;font-size:11px;color:var(--red)}
.v,.x,.chip,.consts,td{font-family:ui-monospace,'DejaVu Sans Mono',Consolas,monospace}
.v{margin-left:auto;flex:0 1 auto;font-size:12px;white-space:pre;overflow:hidden;text-overflow:ellipsis}
.v i{font-style:normal;font-size:10px;color:var(--faint);margin-left:1ch}
.v em,td em{font-style:normal;color:var(--red)}
.x{flex:0 0 12ch;overflow:hidden;text-overflow:ellipsis;font-size:10px;color:var(--faint)}
.o{min-width:5ch;text-align:right;font-variant-numeric:tabular-nums;margin-left:auto}
.v~.o{margin-left:0}
.q{padding-right:calc(5ch + 10px)}
.chip{font-size:11px;line-height:15px;margin-right:-4px;padding:0 5px;border-radius:2px;background:var(--chip);white-space:pre}
.chip~.x{flex:0 0 auto;margin-left:auto}
.r b,.r .v{color:var(--soft)}
.e.r{border-left-style:dashed}
.g.r .w{border-bottom-style:dashed}
.e.amb{border-color:var(--amber);background:var(--amberrow)}
.g.amb .w{border-bottom:2px dotted var(--amber)}
.e.bad,.bare{border-color:var(--red);background:var(--redrow)}
.g.bad .w{border-bottom:2px dashed var(--red)}
.got::before{content:'';position:absolute;left:-9px;top:calc(10*var(--u) - 4px);border:4px solid transparent;border-left:6px solid var(--blue);border-right:0}
.got.amb::before{border-left-color:var(--amber)}
.got.bad::before{border-left-color:var(--red)}
:target{outline:2px solid var(--blue)}
.lines,.consts{position:absolute;left:42%;width:16%;top:0;height:100%;overflow:visible}
.lines path,.lines line{fill:none;stroke:var(--blue);stroke-width:1.25px;opacity:.5;vector-effect:non-scaling-stroke}
.lines .c *{stroke:var(--red);stroke-width:1.75px;stroke-dasharray:6 4;opacity:1}
.lines .d *{stroke:var(--amber);stroke-width:1.75px;stroke-dasharray:2 3;opacity:1}
.lines .t *{stroke-dasharray:1 3}
.lines g .hit *{stroke-width:12px;stroke-dasharray:none;opacity:0}
.lines .hit{opacity:1}
.lines g:hover>*{opacity:1;stroke-width:2.5px}
.consts{pointer-events:none;font-size:11px;line-height:16px}
.consts span{position:absolute;right:21%;top:calc((var(--y) + 10)*var(--u) - 8px);max-width:240px;overflow:hidden;text-overflow:ellipsis;white-space:pre;padding:0 2px;color:var(--blue);background:var(--paper)}
table{border-collapse:collapse}
th{text-align:left;font-size:11px;font-weight:600;padding:0 12px 0 0;color:var(--soft)}
td{padding:0 12px 0 0;vertical-align:top;border-top:1px solid var(--rule);font-size:11px;white-space:pre-wrap;overflow-wrap:anywhere}
.c td{color:var(--red)}
.d td{color:var(--amber)}
@media screen and (max-width:760px){
:root{--u:1.7px}
body{margin:12px 0;padding:0 8px}
nav{grid-template-columns:1fr 1fr}
.ribs{grid-template-columns:45% 45%}
.side{width:45%}
.lines,.consts{left:45%;width:10%}
.x,.p,.m{display:none}
.g,.e{left:calc(var(--d)*5px)}
.u{left:calc(var(--d)*5px + 2px)}
.e{padding:0 3px 0 5px}
.e>.w:first-child{flex-wrap:wrap;gap:0 4px;height:34px;line-height:16px}
.w b{flex:0 1 auto;max-width:calc(100% - 8ch)}
.e b{font-size:10px}
.w small{flex:1 1 0;margin-left:-4px}
.q small{flex:none;margin:0}
.e>.w:first-child .v{order:3;flex:1 1 100%;margin:0;font-size:11px}
.g b{font-size:11px}
.g .w{height:24px;line-height:24px;margin-top:8px;padding:0}
small{font-size:9px}
.o{min-width:0;font-size:9px}
.q{gap:5px;padding:0}
.q .v{margin:0;font-size:11px}
.chip{padding:0 2px}
.consts{font-size:9px}
.consts span{max-width:90px}
.got::before{left:-7px}
}
@page{size:1123px 794px;margin:38px}
@media print{
body{margin:0;padding:0;max-width:none;-webkit-print-color-adjust:exact;print-color-adjust:exact}
.map{break-inside:avoid}
.long{break-before:page;break-inside:auto}
h2,th{break-after:avoid}
tr,nav a{break-inside:avoid}
}
";

/// What is said of the rows of condition-names, where there are some.
pub(crate) const NAMES_STYLE: &str =
    ".n{height:calc(16*var(--u));line-height:calc(16*var(--u));font-size:11px;color:var(--soft);white-space:pre;overflow:hidden;text-overflow:ellipsis}
.g .n{padding-left:14px}
@media screen and (max-width:760px){
.n{font-size:9px}
.g .n{padding-left:7px}
}
";

/// The beginning of the page.
pub(crate) const HEAD: &str = "<!DOCTYPE html>
<html lang=\"en\"><head><meta charset=\"utf-8\">
<meta name=\"viewport\" content=\"width=device-width, initial-scale=1\">
";

/// What dashed lines mean, where there are some.
pub(crate) const TESTED_KEY: &str =
    "<p>dotted lines: moves of loops to a count, in as many turns as the count says</p>
";

/// What stands in front of the ribbons.
pub(crate) const RIBBONS_HEAD: &str = "<div class=\"ribs\">
";

/// What stands behind the ribbons.
pub(crate) const RIBBONS_END: &str = "</div>
";

/// What stands between the lines and the constants.
pub(crate) const LINES_END: &str = "</svg>
<div class=\"consts\">
";

/// What stands behind the constants.
pub(crate) const CONSTANTS_END: &str = "</div>
";

/// The end of the drawing.
pub(crate) const DRAWING_END: &str = "</div>
";

/// What stands in front of the list of moves.
pub(crate) const MOVES_HEAD: &str = "<h2>Moves</h2>
<table><tr><th>line</th><th>from</th><th>to</th><th>moves</th><th>may lose</th></tr>
";

/// What stands in front of the list of bytes that no receiver covers.
pub(crate) const BARE_HEAD: &str = "<h2>Bytes that no receiver covers</h2>
<table><tr><th>offset</th><th>length</th><th>from item</th></tr>
";

/// What stands in front of the list of the bytes of both records.
pub(crate) const BYTES_HEAD: &str = "<h2>Bytes</h2>
<table><tr><th>item</th><th>offset</th><th>value</th><th>bytes</th></tr>
";

/// The end of a list.
pub(crate) const LIST_END: &str = "</table>
";

/// The end of the page.
pub(crate) const PAGE_END: &str = "</body></html>
";
