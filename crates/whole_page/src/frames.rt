//! The style, the script and the heads of tables.

ghost use Rattle.std.specs.Prelude.{◌≡◌};
ghost use Rattle.whole_page.specs.Frames.{against, beginning, heads_close, hint, marker, pair_close, pair_next, pair_open, script, section_close, style, sum_open, summary, summary_close};

const BEGINNING: &[u8] = b"<!DOCTYPE html>\n<html lang=\"en\"><head><meta charset=\"utf-8\"/>\
<meta name=\"viewport\" content=\"width=device-width\"/><title>";

const STYLE: &[u8] = b" - traces</title>\n<style>\n\
:root{color-scheme:light dark;--bg:#fbfaf8;--fg:#22252b;--dim:#6b7280;--line:#dcd8d0;--card:#fff;--mem:#c2410c;--move:#0e7490;--l:88%;--s:62%;--ink:24%}\n\
@media screen and (prefers-color-scheme:dark){:root{--bg:#14161a;--fg:#e6e4df;--dim:#9aa1ac;--line:#2c3038;--card:#1b1e24;--mem:#fb923c;--move:#67e8f9;--l:27%;--s:42%;--ink:88%}}\n\
*{box-sizing:border-box}body{margin:0;background:var(--bg);color:var(--fg);font:15px/1.5 system-ui,sans-serif}\n\
header,section{max-width:2200px;margin:0 auto;padding:20px 28px}h1{font-size:22px;margin:0}h2{font:600 16px/1.4 ui-monospace,Menlo,Consolas,monospace;margin:0 0 2px}\n\
p.sum{margin:2px 0 14px;color:var(--dim)}em{font-style:normal;color:var(--mem)}\n\
code,table,pre,.graph text{font-family:ui-monospace,Menlo,Consolas,monospace}\n\
section{border-top:1px solid var(--line)}.two{display:flex;gap:26px;align-items:flex-start;margin-top:14px;overflow-x:auto}.two>div{flex:0 0 auto}.two>div:first-child{flex:0 1 auto;min-width:24%;max-width:40%}\n\
pre{margin:0;font-size:13px;line-height:1.45;white-space:pre-wrap;background:var(--card);border:1px solid var(--line);border-radius:8px;padding:10px 14px;max-height:30em;overflow:auto}\n\
.graph{max-width:100%;height:auto}.graph .block rect{fill:hsl(var(--h) var(--s) var(--l));stroke:hsl(var(--h) 45% 55%)}\n\
.graph .block .heat{fill:hsl(var(--h) 60% 50%);stroke:none}.graph text{fill:var(--fg);font-size:13px;text-anchor:middle}.graph .small{font-size:11px;opacity:.75}\n\
.edge{fill:none;stroke:var(--dim);stroke-width:1.4}.edge.inside{stroke:hsl(var(--h) 60% 50%);stroke-width:3.2}.edge.back{stroke-dasharray:5 4}\n\
h3{max-width:42em;font-size:15px;margin:22px 0 6px;display:flex;gap:10px;align-items:baseline}h3:first-child{margin-top:0}h4{font-size:14px;margin:0 0 8px}\n\
h3 b{background:hsl(var(--h) var(--s) var(--l));padding:1px 10px;border-radius:6px;white-space:nowrap}h3 span{font-weight:400;color:var(--dim);font-size:13px}\n\
.wide{overflow-x:auto}table{border-collapse:separate;border-spacing:2px 1px;font-size:12.5px}\n\
th{font-weight:500;color:var(--dim);text-align:center;padding:0 6px}th:first-child{text-align:left}\n\
td{padding:1px 6px;border-radius:4px;text-align:center;min-width:38px;vertical-align:top}td.text{text-align:left;white-space:pre;padding-right:18px}\n\
td.on{background:hsl(var(--h) var(--s) var(--l));color:hsl(var(--h) 40% var(--ink))}td.hit{outline:2px solid hsl(var(--h) 60% 50%);outline-offset:-1px}\n\
td.homes,td.words{text-align:left;color:var(--dim)}td.words{white-space:pre;font-size:11.5px}td.words b{font-weight:400;opacity:.6}\n\
table.list td{text-align:right;padding:1px 10px}table.list td.text{text-align:left;white-space:normal}table.list th{padding:0 10px}\n\
tr.head td.text{font-weight:600;padding-top:8px}tr.mem td.text{color:var(--mem)}tr.move td.text{color:var(--move)}tr.end td.text{color:var(--dim)}\n\
i{font-style:normal;border-radius:3px;padding:0 1px}pre i{color:var(--mem)}.lit{background:#facc15!important;color:#111!important}tr:target td.text{background:#facc15;color:#111}\n\
a{color:inherit}@media(max-width:900px){.two{display:block}}\n\
@media print{:root{color-scheme:light}pre{max-height:none}.two{display:block}.wide{overflow:visible}tr,svg{break-inside:avoid}}\n\
</style></head><body>";

const MARKER: &[u8] =
    b"<svg width=\"0\" height=\"0\" style=\"position:absolute\"><defs><marker id=\"a\" viewBox=\"0 0 8 8\" refX=\"7\" refY=\"4\" \
markerWidth=\"9\" markerHeight=\"9\" markerUnits=\"userSpaceOnUse\" orient=\"auto\"><path d=\"M0 0 8 4 0 8z\" fill=\"#8a8f98\"/></marker></defs></svg>\n\
<header><h1>";

const SUMMARY: &[u8] =
    b"<section><h2>Procedures</h2><p class=\"sum\">The first ones store and load homes most often. \
A block's weight is how often it runs in a run of its procedure, by its loops; weighted are stores and loads of homes, rounded down.</p>\
<div class=\"wide\"><table class=\"list\">\n<tr><th>procedure</th><th>blocks</th><th>values</th><th>traces</th>\
<th>weighted</th><th>stores</th><th>loads</th><th>moves</th>";

const AGAINST: &[u8] = b"<th>against: weighted</th><th>stores</th><th>loads</th><th>moves</th>";

const SCRIPT: &[u8] = b"<script>\n\
document.addEventListener('mouseover',function(e){\n\
var t=e.target.closest?e.target.closest('[data-v]'):null,s=t?t.closest('section'):null;\n\
document.querySelectorAll('.lit').forEach(function(x){x.classList.remove('lit')});\n\
if(s)s.querySelectorAll('[data-v=\"'+t.getAttribute('data-v')+'\"]').forEach(function(x){x.classList.add('lit')});\n\
});\n\
</script>\n</body></html>\n";

const SUM_OPEN: &[u8] = b"<p class=\"sum\">";

const HINT: &[u8] = b"; point at a value to see where it lives</p></header>\n";

const HEADS_CLOSE: &[u8] = b"</tr>\n";

const SUMMARY_CLOSE: &[u8] = b"</table></div></section>\n";

const PAIR_OPEN: &[u8] = b"<div class=\"two\"><div>";

const PAIR_NEXT: &[u8] = b"</div><div>";

const PAIR_CLOSE: &[u8] = b"</div></div>\n";

const SECTION_CLOSE: &[u8] = b"</section>\n";

/// What stands before the title.
#[tactic(auto, unfolding(crate::specs::Frames::beginning))]
pub(crate) fn beginning() -> &'static [u8]
    ensures { result.now ≡ beginning }
{
    BEGINNING
}

/// The title's end and the style.
#[tactic(auto, unfolding(crate::specs::Frames::style))]
pub(crate) fn style() -> &'static [u8]
    ensures { result.now ≡ style }
{
    STYLE
}

/// The body's beginning, with the arrow head of drawings.
#[tactic(auto, unfolding(crate::specs::Frames::marker))]
pub(crate) fn marker() -> &'static [u8]
    ensures { result.now ≡ marker }
{
    MARKER
}

/// The head of the table that sums up procedures.
#[tactic(auto, unfolding(crate::specs::Frames::summary))]
pub(crate) fn summary() -> &'static [u8]
    ensures { result.now ≡ summary }
{
    SUMMARY
}

/// And of the columns of another policy, where there is one.
#[tactic(auto, unfolding(crate::specs::Frames::against))]
pub(crate) fn against(other: bool) -> &'static [u8]
    ensures { result.now ≡ against other }
{
    if other { AGAINST } else { b"" }
}

/// The script, and the page's end.
#[tactic(auto, unfolding(crate::specs::Frames::script))]
pub(crate) fn script() -> &'static [u8]
    ensures { result.now ≡ script }
{
    SCRIPT
}

/// What opens the line below the page's heading.
#[tactic(auto, unfolding(crate::specs::Frames::sum_open))]
pub(crate) fn sum_open() -> &'static [u8]
    ensures { result.now ≡ sum_open }
{
    SUM_OPEN
}

/// And what ends it, with the header.
#[tactic(auto, unfolding(crate::specs::Frames::hint))]
pub(crate) fn hint() -> &'static [u8]
    ensures { result.now ≡ hint }
{
    HINT
}

/// What ends the head of a table.
#[tactic(auto, unfolding(crate::specs::Frames::heads_close))]
pub(crate) fn heads_close() -> &'static [u8]
    ensures { result.now ≡ heads_close }
{
    HEADS_CLOSE
}

/// What ends the table that sums up.
#[tactic(auto, unfolding(crate::specs::Frames::summary_close))]
pub(crate) fn summary_close() -> &'static [u8]
    ensures { result.now ≡ summary_close }
{
    SUMMARY_CLOSE
}

/// What stands before a drawing, with the tables beside it.
#[tactic(auto, unfolding(crate::specs::Frames::pair_open))]
pub(crate) fn pair_open() -> &'static [u8]
    ensures { result.now ≡ pair_open }
{
    PAIR_OPEN
}

/// What stands between them.
#[tactic(auto, unfolding(crate::specs::Frames::pair_next))]
pub(crate) fn pair_next() -> &'static [u8]
    ensures { result.now ≡ pair_next }
{
    PAIR_NEXT
}

/// What stands behind them.
#[tactic(auto, unfolding(crate::specs::Frames::pair_close))]
pub(crate) fn pair_close() -> &'static [u8]
    ensures { result.now ≡ pair_close }
{
    PAIR_CLOSE
}

/// What ends a section.
#[tactic(auto, unfolding(crate::specs::Frames::section_close))]
pub(crate) fn section_close() -> &'static [u8]
    ensures { result.now ≡ section_close }
{
    SECTION_CLOSE
}
